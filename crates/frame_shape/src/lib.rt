// The shape of the side information (5.4.2.3): 38 bits, field by field. Each function equals its definition in
// specs/Shape.antt.
// Inner: `frame_side` stands over it, and `writer_fits` over `joint_end`, which asks nothing. It asks for a frame of 20 to 400 bytes with
// the shape inside.
#![tactic(auto)]

ghost use Rattle.std.specs.Prelude.{◌≡◌, ◌≤◌, ◌<◌};
ghost use Rattle.frame_settings.specs.Settings.{Sized};
ghost use Rattle.frame_bits.specs.Read.{given};
ghost use Rattle.frame_shape.specs.Shape.{joint_end, shape_of};
ghost use Rattle.frame_shape.specs.Sound.{GoodShape};

use frame_bits::{Step, read_bits};
use refusals::Cause;

// Document 01's shape: the first and the second five bits, the mode bit, the gain, the sign bit and the joint index.
#[derive(Clone, Copy, Default)]
pub struct Shape {
    pub low: u8,
    pub high: u8,
    pub mode: u8,
    pub gain: u8,
    pub sign: u8,
    pub joint: u32,
}

// Where the joint index ends, by the mode bit.
pub fn joint_end(mode: usize) -> usize
    ensures value { result ≡ joint_end mode }
    ensures upper_bound { result < 4294967296 }
{
    if mode == 0 { 33460056 } else { 16708096 }
}

// The spectral shape's fields, or cause 3.
pub fn read_shape(s: &[u8], p: usize) -> Result<Step<Shape, usize>, Cause>
    requires p_bound { p ≤ 23 }
    requires sized { Sized s.now }
    ensures result_value { given result ≡ shape_of s.now p }
    ensures good_shape { GoodShape p result }
{
    let low = read_bits(s, p, 5);
    let high = read_bits(s, low.next, 5);
    let mode = read_bits(s, high.next, 1);
    let gain = read_bits(s, mode.next, 1 + mode.value);
    let sign = read_bits(s, gain.next, 1);
    let joint = read_bits(s, sign.next, 25 - mode.value);
    if joint_end(mode.value) <= joint.value {
        return Err(Cause::Joint);
    }
    let shape = Shape {
        low: low.value as u8,
        high: high.value as u8,
        mode: mode.value as u8,
        gain: gain.value as u8,
        sign: sign.value as u8,
        joint: joint.value as u32,
    };
    Ok(Step {
        value: shape,
        next: joint.next,
    })
}
