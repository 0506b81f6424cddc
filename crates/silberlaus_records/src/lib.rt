// The session record in both forms with document 01's numbers and C's structs in place of the results: new, entries, entry and add.
// It stands over `record`.
// Inner: `silberlaus` stands over it. It asks nothing.
#![tactic(auto)]

ghost use Rattle.std.specs.Prelude.{◌≡◌};
ghost use Rattle.record_forms.specs.declared.Form.TheVariants.{Two};
ghost use Rattle.record_bytes.specs.Located.{nowhere};
ghost use Rattle.record_bytes.specs.Answers.{value_answer, found_answer};
ghost use Rattle.record.specs.Answers.{new_number, new_buffer, entries_answer, entry_answer, asked, add_answer, add_buffer};
ghost use Rattle.record.specs.Meaning.{CountMeans, StoredBy};
ghost use Rattle.silberlaus_records.specs.Records.{entries_given, entry_given, added_given};

use record::Located;
use refusals::{Refusal, numbered};

// C's silberlaus_entries.
#[repr(C)]
#[derive(Clone, Copy)]
pub struct SilberlausEntries {
    pub number: u8,
    pub entries: u32,
}

// C's silberlaus_entry.
#[repr(C)]
#[derive(Clone, Copy)]
pub struct SilberlausEntry {
    pub number: u8,
    pub request: u8,
    pub count: u8,
    pub length: u16,
    pub bits: u16,
    pub start: u32,
}

// C's silberlaus_added.
#[repr(C)]
#[derive(Clone, Copy)]
pub struct SilberlausAdded {
    pub number: u8,
    pub used: u32,
}

// The number of entries; a refusal has its number and no entries.
impl From<Result<u32, Refusal>> for SilberlausEntries {
    ghost from_gives = { λ counted given. entries_given given ≡ value_answer counted };

    fn from(counted: Result<u32, Refusal>) -> SilberlausEntries {
        match counted {
            Ok(entries) => SilberlausEntries { number: 0, entries },
            Err(why) => SilberlausEntries {
                number: why.number(),
                entries: 0,
            },
        }
    }
}

// The used length; a refusal has its number and no used length.
impl From<Result<u32, Refusal>> for SilberlausAdded {
    ghost from_gives = { λ added given. added_given given ≡ value_answer added };

    fn from(added: Result<u32, Refusal>) -> SilberlausAdded {
        match added {
            Ok(used) => SilberlausAdded { number: 0, used },
            Err(why) => SilberlausAdded {
                number: why.number(),
                used: 0,
            },
        }
    }
}

// No entry: zero in every field.
fn no_entry() -> Located
    ensures { result ≡ nowhere }
{
    Located {
        start: 0,
        length: 0,
        request: 0,
        count: 0,
        bits: 0,
    }
}

// A number with an entry's fields. Every answer is made here, in registers: a refusal that stored zeros by itself would make the
// compiler load both through memory.
fn entry_with(number: u8, e: Located) -> SilberlausEntry
    ensures { entry_given result ≡ record { number = number; entry = e } }
{
    SilberlausEntry {
        number,
        request: e.request,
        count: e.count,
        length: e.length,
        bits: e.bits,
        start: e.start,
    }
}

// The entry's fields; a refusal has its number and no entry.
impl From<Result<Located, Refusal>> for SilberlausEntry {
    ghost from_gives = { λ found given. entry_given given ≡ found_answer found };

    fn from(found: Result<Located, Refusal>) -> SilberlausEntry {
        match found {
            Ok(e) => entry_with(0, e),
            Err(why) => entry_with(why.number(), no_entry()),
        }
    }
}

// A record of no entries at the start of the buffer, or 1 for a form that there is not, or 6.
pub fn new(form: u32, buffer: &mut [u8]) -> u8
    ensures value { result ≡ new_number form buffer.old }
    ensures buffer_after { buffer.new ≡ new_buffer form buffer.old }
{
    numbered(record::new(form, buffer))
}

// The number of a record's entries, or 1 for a form that there is not, or 7.
pub fn entries(form: u32, bytes: &[u8]) -> SilberlausEntries
    ensures result_value { entries_given result ≡ entries_answer form bytes.now }
    ensures count_means { CountMeans form (entries_given result) bytes.now }
{
    SilberlausEntries::from(record::entries(form, bytes))
}

// An entry's fields, or 1 for a form that there is not, or 7, or 1 for a place that it has not.
pub fn entry(form: u32, bytes: &[u8], place: usize) -> SilberlausEntry
    ensures { entry_given result ≡ entry_answer form bytes.now place }
{
    SilberlausEntry::from(record::entry(form, bytes, place))
}

// An entry added to a record of form 2 and the new used length, or 1, 7 or 6.
pub fn add(
    buffer: &mut [u8],
    used: usize,
    frame: &[u8],
    request: u32,
    count: u32,
    bits: u32,
    length: u32,
) -> SilberlausAdded
    ensures result_value { added_given result ≡ add_answer Two buffer.old used (asked frame.now request count bits) length }
    ensures buffer_after { buffer.new ≡ add_buffer Two buffer.old used (asked frame.now request count bits) length }
    ensures stored_by { StoredBy Two (added_given result) buffer.old buffer.new used (asked frame.now request count bits) }
{
    let added = record::add(buffer, used, frame, request, count, bits, length);
    SilberlausAdded::from(added)
}
