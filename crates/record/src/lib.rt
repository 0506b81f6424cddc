// The session record of documents 01 and 02 in its two forms: entries of a frame, a request, a count and bits, one after the other, then
// their number. It stands over `record_bytes`, which reads, and `record_putting`, which writes. Each public function is total
// and equals its definition in specs/Answers.antt, the lent buffer too; specs/Layout.antt of `record_bytes` says which bytes a list of
// entries is. Nothing is written before the last test.
#![tactic(auto)]

ghost use Rattle.std.specs.Prelude.{◌≡◌};
ghost use Rattle.refusals.specs.Numbers.{number_of};
ghost use Rattle.record_forms.specs.declared.Form.TheVariants.{Two};
ghost use Rattle.record.specs.Answers.{new_number, new_buffer, entries_in, entries_answer, entry_answer, frame_part};
ghost use Rattle.record.specs.Answers.{may_add_to, add_answer, add_buffer, asked};
ghost use Rattle.record_bytes.specs.Answers.{value_answer, found_answer};
ghost use Rattle.record.specs.Meaning.{CountMeans, StoredBy};

pub use record_bytes::Located;
use record_bytes::{entry_before, walk};
use record_forms::{Form, in_range};
use record_putting::{put_end, put_entry};
pub use refusals::Refusal;

// Writes a record of no entries at the start of the buffer.
pub fn new(form: u32, buffer: &mut [u8]) -> Result<(), Refusal>
    ensures result_value { number_of result ≡ new_number form buffer.old }
    ensures buffer_after { buffer.new ≡ new_buffer form buffer.old }
{
    let f = Form::try_from(form)?;
    if buffer.len() < f.end() {
        return Err(Refusal::NoRoom);
    }
    put_end(f, buffer, 0, 0);
    Ok(())
}

// The number of entries of a record of a form.
fn entries_in(form: Form, bytes: &[u8]) -> Result<u32, Refusal>
    ensures { value_answer result ≡ entries_in form bytes.now }
{
    let walked = walk(form, bytes, 0).ok_or(Refusal::NotRecord)?;
    Ok(walked.entries)
}

// The number of entries of a record. Each form is named in its own arm, so that the compiler knows it inside the walk.
pub fn entries(form: u32, bytes: &[u8]) -> Result<u32, Refusal>
    ensures result_value { value_answer result ≡ entries_answer form bytes.now }
    ensures count_means { CountMeans form (value_answer result) bytes.now }
{
    let f = Form::try_from(form)?;
    match f {
        Form::One => entries_in(Form::One, bytes),
        Form::Two => entries_in(Form::Two, bytes),
    }
}

// The entry at a place, the oldest being at 0.
pub fn entry(form: u32, bytes: &[u8], place: usize) -> Result<Located, Refusal>
    ensures { found_answer result ≡ entry_answer form bytes.now place }
{
    let f = Form::try_from(form)?;
    let walked = walk(f, bytes, place).ok_or(Refusal::NotRecord)?;
    if walked.entries as usize <= place {
        return Err(Refusal::Setting);
    }
    // The walk has found an entry there.
    Ok(entry_before(f, bytes, walked.end).unwrap())
}

// The frame of the entry at a place, as a part of the record; an empty part where `entry` refuses.
pub fn frame(form: u32, bytes: &[u8], place: usize) -> &[u8]
    ensures { result.now ≡ frame_part form bytes.now place }
{
    match entry(form, bytes, place) {
        Ok(e) => {
            let start = e.start as usize;
            &bytes[start..start + usize::from(e.length)]
        }
        Err(_) => &bytes[..0],
    }
}

// Document 01's 1 for adding: the used length, the entry's fields and the frame's length.
#[tactic(auto, using(std::proofs::lemmas::Bool::Decides::nat_tests), unfolding(crate::specs::Answers::may_add_to))]
fn may_add(
    room: usize,
    used: usize,
    frame: usize,
    request: u32,
    count: u32,
    bits: u32,
    length: u32,
) -> bool
    ensures { result ≡ may_add_to room used frame request count bits length }
{
    used <= room
        && used <= 65536
        && length as usize == frame
        && in_range(request as usize, count as usize, bits as usize, frame)
}

// Adds an entry to the record of form 2 in the first `used` bytes of the buffer.
pub fn add(
    buffer: &mut [u8],
    used: usize,
    frame: &[u8],
    request: u32,
    count: u32,
    bits: u32,
    length: u32,
) -> Result<u32, Refusal>
    ensures result_value { value_answer result ≡ add_answer Two buffer.old used (asked frame.now request count bits) length }
    ensures buffer_after { buffer.new ≡ add_buffer Two buffer.old used (asked frame.now request count bits) length }
    ensures stored_by { StoredBy Two (value_answer result) buffer.old buffer.new used (asked frame.now request count bits) }
{
    let room = buffer.len();
    if !may_add(room, used, frame.len(), request, count, bits, length) {
        return Err(Refusal::Setting);
    }
    let form = Form::Two;
    let walked = walk(form, &buffer[..used], 0).ok_or(Refusal::NotRecord)?;
    let end = used + frame.len() + form.trailer();
    if room < end || 65536 < end {
        return Err(Refusal::NoRoom);
    }
    let at = used - form.end();
    put_entry(
        form,
        buffer,
        at,
        frame,
        request as u8,
        count as u8,
        bits as u16,
    );
    put_end(form, buffer, end - form.end(), walked.entries + 1);
    Ok(end as u32)
}
