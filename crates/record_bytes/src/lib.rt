// The bytes of a session record of either form: the walk over it from the end back, one step an entry, and bytes put into a buffer. It
// stands over `record_forms`. specs/ says which bytes a list of entries is (Layout) and how they are read (Reading); proofs/Inverse.antt
// shows that reading finds exactly that list.
// Inner: `record_putting`, `record` and what stands over them. It asks for places inside the bytes; `walk` asks nothing.
#![tactic(auto)]

ghost use Rattle.std.specs.Prelude.{◌≡◌, cond, ◌+◌, ◌≤◌, ◌<◌, length, eqb};
ghost use Rattle.record_forms.specs.declared.Form.TheVariants.{One, Two};
ghost use Rattle.record_bytes.specs.Reading.{number, bits_at, entry_before, may_be, read_record};
ghost use Rattle.record_bytes.specs.Steps.{put, step_of, walk_of};

use record_forms::{Form, in_range};

// Where an entry's frame stands in the record, and the entry's fields.
#[derive(Clone, Copy)]
pub struct Located {
    pub start: u32,
    pub length: u16,
    pub request: u8,
    pub count: u8,
    pub bits: u16,
}

// What the whole walk finds in a record: the number of entries, and where the one that was asked for ends.
#[derive(Clone, Copy)]
pub struct Walked {
    pub entries: u32,
    pub end: usize,
}

// The two bytes from `at` as a number.
#[tactic(auto, using(crate::proofs::Numbers::number_two))]
fn number2(s: &[u8], at: usize) -> usize
    requires { at + 2 ≤ length s.now }
    ensures value { result ≡ number s.now at 2 }
    ensures upper_bound { result < 65536 }
{
    // `u16::from_be_bytes` was tried: the compiler then compares in 16 bits, and the walk is slower.
    usize::from(s[at]) * 256 + usize::from(s[at + 1])
}

// The four bytes from `at` as a number.
#[tactic(auto, using(crate::proofs::Numbers::number_four))]
fn number4(s: &[u8], at: usize) -> u32
    requires { at + 4 ≤ length s.now }
    ensures { result ≡ number s.now at 4 }
{
    u32::from_be_bytes([s[at], s[at + 1], s[at + 2], s[at + 3]])
}

// The bits of an entry, which stand from `at` on where the form has them.
fn bits_at(form: Form, s: &[u8], at: usize) -> usize
    requires { at + 2 ≤ length s.now }
    ensures value { result ≡ bits_at form s.now at }
    ensures upper_bound { result < 65536 }
{
    number2(s, at) | form.joined_bits()
}

// The entry that ends before `end`; none where no entry does.
pub fn entry_before(form: Form, bytes: &[u8], end: usize) -> Option<Located>
    requires end_in_bounds { end ≤ length bytes.now }
    requires end_bound { end ≤ 65536 }
    ensures { result ≡ step_of form (entry_before form bytes.now end) end }
{
    let size = form.trailer();
    // Tests in place of `checked_sub`, which puts a conditional move into the walk and is slower.
    if end < size {
        return None;
    }
    let at = end - size;
    let request = bytes[at];
    let count = bytes[at + 1];
    let bits = bits_at(form, bytes, at + 2);
    let length = number2(bytes, end - 2);
    if at < length {
        return None;
    }
    let start = at - length;
    if !in_range(usize::from(request), usize::from(count), bits, length) {
        return None;
    }
    Some(Located {
        start: start as u32,
        length: length as u16,
        request,
        count,
        bits: bits as u16,
    })
}

// Whether the bytes may be a record of the form by their number and their last byte.
fn may_be(form: Form, bytes: &[u8]) -> bool
    ensures { result ≡ may_be form bytes.now }
{
    let size = bytes.len();
    if size < form.end() {
        return false;
    }
    if 65536 < size {
        return false;
    }
    match form {
        Form::One => true,
        Form::Two => bytes[size - 1] == 2,
    }
}

// Walks to byte 0, and notes on the way where the entry at `place` ends; none where the bytes are no record.
fn walk_back(form: Form, bytes: &[u8], place: usize) -> Option<Walked>
    ensures { result ≡ walk_of form (read_record form bytes.now) place }
{
    if !may_be(form, bytes) {
        return None;
    }
    let mut end = bytes.len() - form.end();
    let entries = number4(bytes, end);
    let mut found = 0;
    for left in (0..entries as usize).rev() {
        let e = entry_before(form, bytes, end)?;
        if left == place {
            found = end;
        }
        end = e.start as usize;
    }
    if end != 0 {
        return None;
    }
    Some(Walked {
        entries,
        end: found,
    })
}

// The walk in form 1. Each form has a function of its own, so that the compiler knows the form inside the loop.
fn walk_one(bytes: &[u8], place: usize) -> Option<Walked>
    ensures { result ≡ walk_of One (read_record One bytes.now) place }
{
    walk_back(Form::One, bytes, place)
}

// The walk in form 2.
fn walk_two(bytes: &[u8], place: usize) -> Option<Walked>
    ensures { result ≡ walk_of Two (read_record Two bytes.now) place }
{
    walk_back(Form::Two, bytes, place)
}

// The walk in either form.
pub fn walk(form: Form, bytes: &[u8], place: usize) -> Option<Walked>
    ensures { result ≡ walk_of form (read_record form bytes.now) place }
{
    match form {
        Form::One => walk_one(bytes, place),
        Form::Two => walk_two(bytes, place),
    }
}

// Puts bytes into a buffer from a place on. `copy_from_slice` calls `memmove`, which the C interface does not want.
pub fn copy_in(dst: &mut [u8], at: usize, src: &[u8])
    requires { at + length src.now ≤ length dst.old }
    ensures { dst.new ≡ put dst.old at src.now }
{
    for i in 0..src.len() {
        dst[at + i] = src[i];
    }
}
