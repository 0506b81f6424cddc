// The end of the arithmetic stream (5.3.14, ac_enc_finish), and the frame joined from both streams. Each function equals its definition in
// specs/Ending.antt of `writer_laws` or in specs/Joined.antt.
// Inner: `writer_frame` stands over it. It asks for streams of `writer_stream` and `writer_bits` that share no bit of the frame.
#![tactic(auto)]

ghost use Rattle.std.specs.Prelude.{◌≡◌, ◌+◌, ◌-◌, ◌*◌, ◌^◌, ◌≤◌, ◌<◌, length};
ghost use Rattle.writer_laws.specs.Stream.{front_of, whole_of};
ghost use Rattle.writer_steps.specs.Flow.{Flows};
ghost use Rattle.writer_laws.specs.Ending.{up_of, end_bits, code_of, room_of};
ghost use Rattle.writer_steps.specs.Joined.{Apart, joined_of};

use frame_coder::Coder;
use frame_residual::log2;
use writer_stream::carry;

// The least multiple of 2^e at or above low, less than 2^e above it.
fn round_up(low: usize, e: usize) -> usize
    requires low_bound { low < 16777216 }
    requires e_bound { e ≤ 23 }
    ensures value { result ≡ up_of low (2 ^ e) * 2 ^ e }
    ensures upper_bound { result < low + 2 ^ e }
{
    ((low + ((1 << e) - 1)) >> e) << e
}

// The exponent of the last multiple: floor (log2 range), or one less.
fn exponent(low: usize, range: usize) -> usize
    requires low_bound { low < 16777216 }
    requires le_range { 65536 ≤ range }
    requires range_bound { range < 16777216 }
    ensures result_value { 24 - result ≡ end_bits low range }
    ensures lower_bound { 15 ≤ result }
    ensures upper_bound { result ≤ 23 }
{
    let e = log2(range);
    if round_up(low, e) + (1 << e) <= low + range {
        e
    } else {
        e - 1
    }
}

// The stream's last bits: its first 512 bytes are its code, and zeros.
pub fn end(c: Coder, front: &mut [u8])
    requires flows { Flows front.old c }
    requires at_bound { c.at ≤ 500 }
    ensures front_after { front_of front.new 512
        ≡ code_of (whole_of front.old c) * 2 ^ room_of 512 (whole_of front.old c) }
    ensures front_len { length front.new ≡ 512 }
{
    let low = c.low;
    let at = c.at;
    let v = round_up(low, exponent(low, c.range));
    if 16777216 <= v {
        carry(front, at - 3);
    }
    front[at - 3] = (v / 65536 % 256) as u8;
    front[at - 2] = (v / 256 % 256) as u8;
}

// The frame from both streams, which share no bit of a byte.
pub fn join(front: &[u8], side: &[u8], frame: &mut [u8])
    requires front_len { length front.now ≡ 512 }
    requires side_len { length side.now ≡ 512 }
    requires frame_len_bound { length frame.old ≤ 400 }
    requires apart { Apart front.now side.now (length frame.old) }
    ensures { frame.new ≡ joined_of front.now side.now (length frame.old) }
{
    let n = frame.len();
    for (i, b) in frame.iter_mut().enumerate() {
        *b = front[i] + side[n - 1 - i];
    }
}
