// The listing of a record of either form, built from the end of a buffer back, since that is how the entries are read: one more step an
// entry. It stands over `record_bytes`. `list` is total and equals its definition in specs/Listing.antt, the lent buffer too.
#![tactic(auto)]

ghost use Rattle.std.specs.Prelude.{◌≡◌, ◌+◌, ◌≤◌, ◌<◌, length};
ghost use Rattle.record_bytes.specs.Steps.{Whole, Placed};
ghost use Rattle.record_listing.specs.Listing.{leading, field, line, lines_in, known_in};
ghost use Rattle.record_listing.specs.Listing.{listed_answer, list_answer, list_buffer};

use record_bytes::{Located, copy_in, entry_before, walk};
use record_forms::Form;

// What the bytes are: a record of a form, with so many entries.
#[derive(Clone, Copy)]
pub struct Known {
    pub form: Form,
    pub entries: u32,
}

fn digit(d: usize) -> u8
    requires { d < 10 }
    ensures { result ≡ 48 + d }
{
    b'0' + d as u8
}

// Puts the digits of n, none for 0, so that they end before `end`, and answers where they start.
fn put_digits(out: &mut [u8], end: usize, n: usize) -> usize
    requires le_end { 3 ≤ end }
    requires end_in_bounds { end ≤ length out.old }
    requires n_bound { n < 1000 }
    ensures placed { Placed out.old out.new result end (leading n n) }
    ensures end_bound { end ≤ result + 3 }
{
    let mut at = end;
    let mut rest = n;
    // No `for`: what is left of the number ends it, and no count.
    while 0 < rest {
        at -= 1;
        out[at] = digit(rest % 10);
        rest /= 10;
    }
    at
}

// Puts n in decimal and the byte after it so that they end before `end`, and answers where they start.
fn put_field(out: &mut [u8], end: usize, n: usize, after: u8) -> usize
    requires le_end { 5 ≤ end }
    requires end_in_bounds { end ≤ length out.old }
    requires n_bound { n < 10000 }
    ensures placed { Placed out.old out.new result end (field n after) }
    ensures end_bound { end ≤ result + 5 }
{
    out[end - 1] = after;
    out[end - 2] = digit(n % 10);
    put_digits(out, end - 2, n / 10)
}

// Puts a text so that it ends before `end`.
fn put_text(out: &mut [u8], end: usize, text: &[u8]) -> usize
    requires text_len_bound { length text.now ≤ end }
    requires end_in_bounds { end ≤ length out.old }
    ensures { Placed out.old out.new result end text.now }
{
    let at = end - text.len();
    copy_in(out, at, text);
    at
}

// Puts the line of the entry at a place.
fn put_line(out: &mut [u8], end: usize, place: usize, e: Located) -> usize
    requires le_end { 20 ≤ end }
    requires end_in_bounds { end ≤ length out.old }
    requires place_bound { place < 10000 }
    requires length_bound { e.length < 10000 }
    ensures placed { Placed out.old out.new result end (line place e.length e.request e.count) }
    ensures end_bound { end ≤ result + 20 }
{
    let count = put_field(out, end, usize::from(e.count), b'\n');
    let request = put_field(out, count, usize::from(e.request), b' ');
    let length = put_field(out, request, usize::from(e.length), b' ');
    put_field(out, length, place, b' ')
}

// Puts the lines of a record of n entries at the end of the buffer, the youngest first.
fn put_lines(form: Form, bytes: &[u8], n: usize, out: &mut [u8]) -> usize
    requires whole { Whole form bytes.now n }
    requires in_bounds { 65536 ≤ length out.old }
    ensures placed { Placed out.old out.new result (length out.old) (lines_in form bytes.now) }
    ensures lower_bound { 13 ≤ result }
    ensures n_bound { n < 10000 }
{
    let mut at = out.len();
    let mut end = bytes.len() - form.end();
    for left in (0..n).rev() {
        // The record has an entry there.
        let e = entry_before(form, bytes, end).unwrap();
        at = put_line(out, at, left, e);
        end = e.start as usize;
    }
    at
}

// A record of form 2 if the bytes are one, else of form 1, else none.
fn either_form(bytes: &[u8]) -> Option<Known>
    ensures { result ≡ known_in bytes.now }
{
    if let Some(two) = walk(Form::Two, bytes, 0) {
        return Some(Known {
            form: Form::Two,
            entries: two.entries,
        });
    }
    let one = walk(Form::One, bytes, 0)?;
    Some(Known {
        form: Form::One,
        entries: one.entries,
    })
}

// Puts the listing at the end of a buffer of at least 65,536 bytes, and answers where it starts; none where the buffer is shorter.
pub fn list(bytes: &[u8], out: &mut [u8]) -> Option<usize>
    ensures result_value { listed_answer result ≡ list_answer bytes.now out.old }
    ensures out_after { out.new ≡ list_buffer bytes.now out.old }
{
    let end = out.len();
    if end < 65536 {
        return None;
    }
    if 65536 < bytes.len() {
        return Some(put_text(out, end, b"too long\n"));
    }
    let Some(known) = either_form(bytes) else {
        return Some(put_text(out, end, b"damaged\n"));
    };
    let n = known.entries as usize;
    let below = put_lines(known.form, bytes, n, out);
    let at = put_field(out, below, n, b'\n');
    Some(put_text(out, at, b"records "))
}
