// The session record in both forms under C names: new, entries, entry, add and both moves. It stands over `silberlaus_records` and
// `silberlaus_moves`.
ghost use Rattle.std.specs.Prelude.{◌≡◌};
ghost use Rattle.record_forms.specs.declared.Form.TheVariants.{One, Two};
ghost use Rattle.record.specs.Answers.{new_number, new_buffer, entries_answer, entry_answer, asked, add_answer, add_buffer};
ghost use Rattle.record.specs.Meaning.{CountMeans, StoredBy};
ghost use Rattle.record_moving.specs.Moving.{move_answer, move_buffer};
ghost use Rattle.silberlaus_records.specs.Records.{entries_given, entry_given, added_given};

use silberlaus_records::{SilberlausAdded, SilberlausEntries, SilberlausEntry};

// A record of no entries at the start of the buffer, or 1 for a form that there is not, or 6.
#[unsafe(no_mangle)]
pub extern "C" fn silberlaus_record_new(form: u32, buffer: &mut [u8]) -> u8
    ensures value { result ≡ new_number form buffer.old }
    ensures buffer_after { buffer.new ≡ new_buffer form buffer.old }
{
    silberlaus_records::new(form, buffer)
}

// The number of a record's entries, or 1 for a form that there is not, or 7.
#[unsafe(no_mangle)]
pub extern "C" fn silberlaus_record_entries(form: u32, bytes: &[u8]) -> SilberlausEntries
    ensures result_value { entries_given result ≡ entries_answer form bytes.now }
    ensures count_means { CountMeans form (entries_given result) bytes.now }
{
    silberlaus_records::entries(form, bytes)
}

// An entry's fields, or 1 for a form that there is not, or 7, or 1 for a place that it has not.
#[unsafe(no_mangle)]
pub extern "C" fn silberlaus_record_entry(form: u32, bytes: &[u8], place: usize) -> SilberlausEntry
    ensures { entry_given result ≡ entry_answer form bytes.now place }
{
    silberlaus_records::entry(form, bytes, place)
}

// An entry added to a record of form 2 and the new used length, or 1, 7 or 6.
#[unsafe(no_mangle)]
pub extern "C" fn silberlaus_record_add(
    buffer: &mut [u8],
    used: usize,
    frame: &[u8],
    request: u32,
    count: u32,
    bits: u32,
    length: u32,
) -> SilberlausAdded
    ensures result_value { added_given result ≡ add_answer Two buffer.old used (asked frame.now request count bits) length }
    ensures buffer_after { buffer.new ≡ add_buffer Two buffer.old used (asked frame.now request count bits) length }
    ensures stored_by { StoredBy Two (added_given result) buffer.old buffer.new used (asked frame.now request count bits) }
{
    silberlaus_records::add(buffer, used, frame, request, count, bits, length)
}

// The entries of a record of form 1 as a record of form 2, and its used length, or 7 or 6.
#[unsafe(no_mangle)]
pub extern "C" fn silberlaus_record_to_form_2(bytes: &[u8], out: &mut [u8]) -> SilberlausAdded
    ensures result_value { added_given result ≡ move_answer One Two bytes.now out.old }
    ensures out_after { out.new ≡ move_buffer One Two bytes.now out.old }
{
    silberlaus_moves::to_form_2(bytes, out)
}

// The entries of a record of form 2 as a record of form 1, and its used length, or 7 or 6.
#[unsafe(no_mangle)]
pub extern "C" fn silberlaus_record_to_form_1(bytes: &[u8], out: &mut [u8]) -> SilberlausAdded
    ensures result_value { added_given result ≡ move_answer Two One bytes.now out.old }
    ensures out_after { out.new ≡ move_buffer Two One bytes.now out.old }
{
    silberlaus_moves::to_form_1(bytes, out)
}
