// A session record moved from one form to the other, into a second lent buffer: one walk from the end back counts its entries, a second
// writes them from the end of what is written back. It stands over `record_bytes` and `record_putting`. Both public functions are total
// and equal their definition in specs/Moving.antt, the lent buffer too. Nothing is written before the last test.
#![tactic(auto)]

ghost use Rattle.std.specs.Prelude.{◌≡◌, ◌++◌, ◌+◌, ◌*◌, ◌≤◌, length, take, drop};
ghost use Rattle.record_forms.specs.Forms.{trailer_size, end_size};
ghost use Rattle.record_forms.specs.declared.Form.TheVariants.{One, Two};
ghost use Rattle.record_bytes.specs.Layout.{trailer_bytes};
ghost use Rattle.record_bytes.specs.Answers.{value_answer};
ghost use Rattle.record_bytes.specs.Steps.{Whole, put, Placed};
ghost use Rattle.record_moving.specs.Moving.{moved_entries, move_answer, move_buffer};

use record_bytes::{Located, entry_before, walk};
use record_forms::Form;
use record_putting::{put_end, put_entry};
pub use refusals::Refusal;

// The used length of a record of n entries in the other form.
fn length_in(from: Form, to: Form, used: usize, n: usize) -> usize
    requires from_bound { n * trailer_size from + end_size from ≤ used }
    requires used_bound { used ≤ 65536 }
    requires n_bound { n ≤ 65536 }
    ensures { result + (n * trailer_size from + end_size from) ≡ used + (n * trailer_size to + end_size to) }
{
    let frames = used - (n * from.trailer() + from.end());
    frames + (n * to.trailer() + to.end())
}

// Puts an entry with its frame as it stands, so that it ends before `end`; answers where it starts.
fn put_before(form: Form, bytes: &[u8], e: Located, out: &mut [u8], end: usize) -> usize
    requires le_length { 16 ≤ e.length }
    requires length_in_bounds { e.start + e.length ≤ length bytes.now }
    requires form_bound { e.length + trailer_size form ≤ end }
    requires end_in_bounds { end ≤ length out.old }
    ensures { Placed out.old out.new result end
        (take e.length (drop e.start bytes.now) ++ trailer_bytes form e.request e.count e.bits e.length) }
{
    let size = usize::from(e.length);
    let start = e.start as usize;
    let at = end - (size + form.trailer());
    put_entry(
        form,
        out,
        at,
        &bytes[start..start + size],
        e.request,
        e.count,
        e.bits,
    );
    at
}

// Puts the entries of a record of n entries so that they end before `end`, the youngest first.
fn put_entries(from: Form, to: Form, bytes: &[u8], n: usize, out: &mut [u8], end: usize)
    requires whole { Whole from bytes.now n }
    requires end_value { end ≡ length (moved_entries from to bytes.now) }
    requires end_in_bounds { end ≤ length out.old }
    ensures { out.new ≡ put out.old 0 (moved_entries from to bytes.now) }
{
    let mut at = end;
    let mut place = bytes.len() - from.end();
    for _left in (0..n).rev() {
        // The record has an entry there.
        let e = entry_before(from, bytes, place).unwrap();
        at = put_before(to, bytes, e, out, at);
        place = e.start as usize;
    }
}

// Writes the record of one form at the start of the buffer in the other.
fn moved(from: Form, to: Form, bytes: &[u8], out: &mut [u8]) -> Result<u32, Refusal>
    ensures result_value { value_answer result ≡ move_answer from to bytes.now out.old }
    ensures out_after { out.new ≡ move_buffer from to bytes.now out.old }
{
    let walked = walk(from, bytes, 0).ok_or(Refusal::NotRecord)?;
    let n = walked.entries as usize;
    let used = length_in(from, to, bytes.len(), n);
    if out.len() < used || 65536 < used {
        return Err(Refusal::NoRoom);
    }
    let at = used - to.end();
    put_end(to, out, at, walked.entries);
    put_entries(from, to, bytes, n, out, at);
    Ok(used as u32)
}

// The entries of a record of form 1 as a record of form 2, their bits unknown.
pub fn to_form_2(bytes: &[u8], out: &mut [u8]) -> Result<u32, Refusal>
    ensures result_value { value_answer result ≡ move_answer One Two bytes.now out.old }
    ensures out_after { out.new ≡ move_buffer One Two bytes.now out.old }
{
    moved(Form::One, Form::Two, bytes, out)
}

// The entries of a record of form 2 as a record of form 1, without their bits.
pub fn to_form_1(bytes: &[u8], out: &mut [u8]) -> Result<u32, Refusal>
    ensures result_value { value_answer result ≡ move_answer Two One bytes.now out.old }
    ensures out_after { out.new ≡ move_buffer Two One bytes.now out.old }
{
    moved(Form::Two, Form::One, bytes, out)
}
