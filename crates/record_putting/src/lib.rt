// The parts of a session record put into a buffer, over the form: an entry's frame and trailer, and the record's end. It stands over
// `record_bytes`, whose specs say which bytes these are (Layout) and what putting is (Steps).
// Inner: `record` and `record_moving`. It asks for places inside the buffer, and `put_entry` for a frame of 16 to 65,535 bytes.
#![tactic(auto)]

ghost use Rattle.std.specs.Prelude.{◌≡◌, cond, ◌++◌, ◌+◌, ◌≤◌, leb, length, take, drop};
ghost use Rattle.record_forms.specs.Forms.{bits_size, trailer_size, end_size};
ghost use Rattle.record_bytes.specs.Layout.{big, trailer_bytes, end_bytes};
ghost use Rattle.record_bytes.specs.Steps.{put};

use record_bytes::copy_in;
use record_forms::Form;

// Puts the number of entries, and the form's mark behind it.
pub fn put_end(form: Form, out: &mut [u8], at: usize, n: u32)
    requires { at + end_size form ≤ length out.old }
    ensures { out.new ≡ put out.old at (end_bytes form n) }
{
    copy_in(out, at, &n.to_be_bytes());
    match form {
        Form::One => {}
        Form::Two => {
            out[at + 4] = 2;
        }
    }
}

// Puts an entry's bits, where the form has them.
fn put_bits(form: Form, out: &mut [u8], at: usize, bits: u16)
    requires { at + 2 ≤ length out.old }
    ensures { out.new ≡ put out.old at (big (bits_size form) bits) }
{
    match form {
        Form::One => {}
        Form::Two => {
            copy_in(out, at, &bits.to_be_bytes());
        }
    }
}

// Puts an entry's trailer.
fn put_trailer(form: Form, out: &mut [u8], at: usize, request: u8, count: u8, bits: u16, size: u16)
    requires { at + trailer_size form ≤ length out.old }
    ensures { out.new ≡ put out.old at (trailer_bytes form request count bits size) }
{
    out[at] = request;
    out[at + 1] = count;
    put_bits(form, out, at + 2, bits);
    copy_in(out, at + (form.trailer() - 2), &size.to_be_bytes());
}

// Puts up to 32 bytes by way of an array of its own, so that the compiler need not ask whether the two overlap.
fn put_part(out: &mut [u8], at: usize, bytes: &[u8])
    requires bytes_len_bound { length bytes.now ≤ 32 }
    requires bytes_in_bounds { at + length bytes.now ≤ length out.old }
    ensures { out.new ≡ put out.old at bytes.now }
{
    let mut part = [0u8; 32];
    copy_in(&mut part, 0, bytes);
    copy_in(out, at, &part[..bytes.len()]);
}

// Puts the sixteen bytes of a frame from i on, but where they would pass its last sixteen.
fn put_middle(out: &mut [u8], at: usize, frame: &[u8], i: usize, last: usize)
    requires last_value { last + 16 ≡ length frame.now }
    requires frame_in_bounds { at + length frame.now ≤ length out.old }
    ensures { out.new ≡ cond (leb i last) (put out.old (at + i) (take 16 (drop i frame.now))) out.old }
{
    if i <= last {
        put_part(out, at + i, &frame[i..i + 16]);
    }
}

// Puts a frame by parts of 32 bytes, then what is left by two of sixteen, of which the second ends where it ends.
// One `copy_from_slice` of the whole is slower at 20 bytes.
fn put_frame(out: &mut [u8], at: usize, frame: &[u8])
    requires in_bounds { 16 ≤ length frame.now }
    requires frame_len_bound { length frame.now ≤ 65535 }
    requires frame_in_bounds { at + length frame.now ≤ length out.old }
    ensures { out.new ≡ put out.old at frame.now }
{
    let last = frame.len() - 16;
    let mut i = 0;
    // No `chunks_exact`: what is left is put from where this ends.
    while i + 16 <= last {
        put_part(out, at + i, &frame[i..i + 32]);
        i += 32;
    }
    put_middle(out, at, frame, i, last);
    put_part(out, at + last, &frame[last..]);
}

// Puts an entry.
pub fn put_entry(
    form: Form,
    out: &mut [u8],
    at: usize,
    frame: &[u8],
    request: u8,
    count: u8,
    bits: u16,
)
    requires in_bounds { 16 ≤ length frame.now }
    requires frame_len_bound { length frame.now ≤ 65535 }
    requires form_in_bounds { at + length frame.now + trailer_size form ≤ length out.old }
    ensures { out.new
        ≡ put out.old at (frame.now ++ trailer_bytes form request count bits (length frame.now)) }
{
    let size = frame.len();
    put_frame(out, at, frame);
    put_trailer(form, out, at + size, request, count, bits, size as u16);
}
