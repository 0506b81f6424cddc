// Text put into a buffer, line after line. Each function answers where the text ends; what there is no room for is left out.
ghost use Rattle.std.specs.Prelude.{◌≤◌, length};

// Puts a text.
fn put(out: &mut [u8], at: usize, text: &[u8]) -> usize
    ensures { result ≤ length out.old }
{
    let from = at.min(out.len());
    let n = text.len().min(out.len() - from);
    out[from..from + n].copy_from_slice(&text[..n]);
    from + n
}

// Puts spaces from a column of the line up to column 72.
fn space(out: &mut [u8], at: usize, column: usize) -> usize
    ensures { result ≤ length out.old }
{
    let from = at.min(out.len());
    let n = (72 - column.min(72)).min(out.len() - from);
    out[from..from + n].fill(b' ');
    from + n
}

// Puts a number's digits over the spaces that stand between `from` and `end`, so that they end there.
// By hand: the library formats a number to a writer or to the heap, and here it goes into a lent buffer.
fn digits(out: &mut [u8], from: usize, end: usize, n: usize) {
    if out.len() < end {
        return;
    }
    let mut rest = n;
    for at in (from..end).rev() {
        out[at] = b'0' + (rest % 10) as u8;
        rest = rest / 10;
        if rest == 0 {
            return;
        }
    }
}

// Puts a line and a number behind it, which ends in column 72.
fn fact(out: &mut [u8], at: usize, line: &[u8], n: usize) -> usize
    ensures { result ≤ length out.old }
{
    let from = put(out, at, line);
    let end = space(out, from, line.len());
    digits(out, from, end, n);
    put(out, end, b"\n")
}

// Puts a line alone.
fn plain(out: &mut [u8], at: usize, line: &[u8]) -> usize
    ensures { result ≤ length out.old }
{
    let end = put(out, at, line);
    put(out, end, b"\n")
}

// Puts a text line by line, and behind each line that starts with a space the next of the numbers.
pub fn fill(out: &mut [u8], at: usize, text: &str, numbers: &[usize]) -> usize
    ensures { result ≤ length out.old }
{
    let mut end = at.min(out.len());
    let mut rest = numbers.iter();
    for line in text.lines() {
        if line.starts_with(' ') {
            end = fact(out, end, line.as_bytes(), rest.next().copied().unwrap_or(0));
        } else {
            end = plain(out, end, line.as_bytes());
        }
    }
    end
}
