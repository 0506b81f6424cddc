// The side stream (5.4.2.9): bits from the last byte backwards. The cursor p is the number of bits read. Each function equals its
// definition in specs/Bits.antt.
// Inner: the crates of `frame` stand over it, those of `writer` over its definitions. It asks for a frame of 20 to 400 bytes, for a field
// of at most 25 bits that starts among the first 128.
#![tactic(auto)]

ghost use Rattle.std.specs.Prelude.{◌≡◌, ◌+◌, ◌*◌, ◌≤◌, ◌<◌, length};
ghost use Rattle.frame_settings.specs.Settings.{Sized};
ghost use Rattle.frame_bits.specs.Bits.{bit_of, read_bit};
ghost use Rattle.frame_bits.specs.Read.{given};
ghost use Rattle.frame_bits.specs.Sound.{GoodBit, GoodField, back_of};

use refusals::Cause;

// What a reading step has: a value with the next cursor.
#[derive(Clone, Copy)]
pub struct Step<V, C> {
    pub value: V,
    pub next: C,
}

// Bit p of the side stream, which the caller knows to be inside the frame.
pub fn bit_at(s: &[u8], p: usize) -> usize
    requires { p < 8 * length s.now }
    ensures value { result ≡ bit_of s.now p }
    ensures upper_bound { result < 2 }
{
    let at = s.len() - 1 - p / 8;
    (usize::from(s[at]) >> (p % 8)) % 2
}

// One bit of the side stream, where it lies inside the frame.
pub fn read_bit(s: &[u8], p: usize) -> Result<Step<usize, usize>, Cause>
    requires { Sized s.now }
    ensures result_value { given result ≡ read_bit s.now p }
    ensures good_bit { GoodBit s.now p result }
{
    if p < 8 * s.len() {
        Ok(Step {
            value: bit_at(s, p),
            next: p + 1,
        })
    } else {
        Err(Cause::Outside)
    }
}

// Four bytes from one place back, the first the lowest.
fn four_back(s: &[u8], at: usize) -> usize
    requires le_at { 3 ≤ at }
    requires at_in_bounds { at < length s.now }
    ensures { result ≡ back_of s.now at 4 }
{
    usize::from(s[at])
        + 256
            * (usize::from(s[at - 1])
                + 256 * (usize::from(s[at - 2]) + 256 * usize::from(s[at - 3])))
}

// The field of n bits from p on: four bytes have it whole, and every frame has them there.
pub fn read_bits(s: &[u8], p: usize, n: usize) -> Step<usize, usize>
    requires n_bound { n ≤ 25 }
    requires p_bound { p ≤ 128 }
    requires sized { Sized s.now }
    ensures { GoodField s.now p n result }
{
    let bytes = four_back(s, s.len() - 1 - p / 8);
    Step {
        value: (bytes >> (p % 8)) % (1 << n),
        next: p + n,
    }
}
