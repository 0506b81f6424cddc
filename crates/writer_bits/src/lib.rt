// Bits of the side stream written (5.3.14): into bytes, the first bit the lowest of the first byte, as a frame has them from its end. What
// is written is a list of bits (specs/SideBits.antt of `writer_laws`, `value_bits` of `frame_bits`).
// Inner: `writer_side`, `writer_pair` and those over them stand over it. It asks for 512 bytes of room, for a cursor that it gave itself
// (`Open`), and for bits that fit the room.
#![tactic(auto)]

ghost use Rattle.std.specs.Prelude.{◌≡◌, ◌+◌, ◌^◌, ◌≤◌, ◌<◌, length, take};
ghost use Rattle.frame_bits.specs.Fields.{value_bits};
ghost use Rattle.writer_steps.specs.Cursors.{Open, Puts, Closes, Binary};

use writer_steps::Cursor;

// A value of w bits, lowest first.
pub fn put(v: usize, w: usize, c: Cursor, side: &mut [u8]) -> Cursor
    requires w_bound { w ≤ 25 }
    requires v_bound { v < 2 ^ w }
    requires fact { Open side.old c }
    requires at_bound { c.at ≤ 4000 }
    ensures puts { Puts (value_bits v w) side.old side.new c result }
    ensures fact_2 { Open side.new result }
    ensures at_value { result.at ≡ c.at + w }
{
    let at = c.at;
    let old = c.held;
    let mut held = old + (v << (at % 8));
    let from = at / 8;
    // so that one or two bits are seen to fill one byte at most, and the loop is a branch there
    let full = (at % 8 + w) / 8;
    for b in side[from..from + full].iter_mut() {
        *b = (held % 256) as u8;
        held = held / 256;
    }
    Cursor { at: at + w, held }
}

// The first n of some bits.
pub fn put_bits(bits: &[u8], n: usize, first: Cursor, side: &mut [u8]) -> Cursor
    requires n_in_bounds { n ≤ length bits.now }
    requires binary { Binary n bits.now }
    requires fact { Open side.old first }
    requires n_bound { first.at + n ≤ 4000 }
    ensures puts { Puts (take n bits.now) side.old side.new first result }
    ensures fact_2 { Open side.new result }
    ensures at_value { result.at ≡ first.at + n }
{
    let mut c = first;
    for bit in &bits[..n] {
        c = put(usize::from(*bit), 1, c, side);
    }
    c
}

// The last bits fill a byte with zeros.
pub fn close(c: Cursor, side: &mut [u8])
    requires fact { Open side.old c }
    requires at_bound { c.at ≤ 4000 }
    ensures closes { Closes side.old side.new c }
    ensures side_len { length side.new ≡ 512 }
{
    side[c.at / 8] = (c.held % 256) as u8;
}
