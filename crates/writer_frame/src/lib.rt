// A frame written from fields, lines and residual bits that can be written (5.3.14): both streams into local room, the bits counted, and
// only then the lent frame. The function equals its definition in specs/Writing.antt of `writer_laws`.
// Inner: `writer` stands over it. It asks for what `writer_fits` has found to fit, and a frame of 20 to 400 bytes.
#![tactic(auto)]

ghost use Rattle.std.specs.Prelude.{◌≡◌, length, replicate};
ghost use Rattle.writer_laws.specs.Writing.{given};
ghost use Rattle.writer_steps.specs.Frames.{Writable, StreamsAre, Rest, RestIs, FrameIs};

use frame_answers::Fields;
use frame_coder::Coder;
use frame_pairs::PairSetting;
use frame_residual::bits_left;
use frame_settings::{Setting, rate_offset, tns_weighting};
use writer_pairs::write_pairs;
use writer_side::put_side;
use writer_steps::{Cursor, PairsSent};
use writer_tns::write_filter;

// Both streams up to the last pair, into room of zeros. Apart from its caller, so that the loop over the pairs has all the registers.
#[inline(never)]
fn write_streams(
    r: Setting,
    f: Fields,
    first: &[u8],
    second: &[u8],
    lines: &[i32],
    bits: &[u8],
    bytes: usize,
    front: &mut [u8],
    side: &mut [u8],
) -> Option<PairsSent>
    requires writable { Writable r bytes (given f first.now second.now lines.now bits.now) }
    requires front_value { front.old ≡ replicate 512 0 }
    requires side_value { side.old ≡ replicate 512 0 }
    ensures { StreamsAre r bytes (given f first.now second.now lines.now bits.now)
        front.new side.new result }
{
    let h = f.side.head;
    let w = tns_weighting(r.duration, bytes);
    let p = put_side(r, f.side, side);
    let c = writer_stream::start(front);
    let c1 = write_filter(w, usize::from(f.tns_order_0), first, c, front);
    let c2 = write_filter(w, usize::from(f.tns_order_1), second, c1, front);
    let o = PairSetting {
        lsb: usize::from(h.lsb_mode),
        offset: rate_offset(r.index, bytes),
        half: r.lines / 2,
    };
    write_pairs(
        o,
        lines,
        usize::from(h.last_line) / 2,
        bytes,
        c2,
        p,
        front,
        side,
    )
}

// What follows the pairs: the residual bits that there is room for, the stream's end, and the frame.
fn write_rest(
    c: Coder,
    p: Cursor,
    sent: usize,
    bits: &[u8],
    front: &mut [u8],
    side: &mut [u8],
    frame: &mut [u8],
)
    requires { Rest front.old side.old (length frame.old) c p sent bits.now }
    ensures { RestIs front.old side.old (length frame.old) c p sent bits.now frame.new }
{
    let q = writer_bits::put_bits(bits, sent, p, side);
    writer_bits::close(q, side);
    writer_ending::end(c, front);
    writer_ending::join(front, side, frame);
}

// The frame, or it is as lent.
pub fn write_fitting(
    r: Setting,
    f: Fields,
    first: &[u8],
    second: &[u8],
    lines: &[i32],
    bits: &[u8],
    frame: &mut [u8],
) -> Option<usize>
    requires { Writable r (length frame.old) (given f first.now second.now lines.now bits.now) }
    ensures { FrameIs r (given f first.now second.now lines.now bits.now)
        frame.old frame.new result }
{
    let n = frame.len();
    let mut front = [0u8; 512];
    let mut side = [0u8; 512];
    let ends = write_streams(r, f, first, second, lines, bits, n, &mut front, &mut side)?;
    let left = bits_left(n, ends.side.at, ends.coder).ok()?;
    let sent = left.min(usize::from(f.residual_bits));
    write_rest(
        ends.coder, ends.side, sent, bits, &mut front, &mut side, frame,
    );
    Some(sent)
}
