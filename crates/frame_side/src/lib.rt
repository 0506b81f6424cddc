// The side information (5.4.2.3), field by field: each function equals its definition in specs/Side.antt, and no field
// leaves a frame of 20 bytes.
// Inner: `frame_answers`, `frame_spectral`, `frame_arithmetic` and `frame` stand over it, `writer_fits` and `writer_side` over `last_pair`
// and `second_flag`. It asks for a known setting and a frame of 20 to 400 bytes.
#![tactic(auto)]

ghost use Rattle.std.specs.Prelude.{◌≡◌, ◌≤◌, ◌<◌};
ghost use Rattle.frame_settings.specs.Settings.{Known, Sized};
ghost use Rattle.frame_bits.specs.Read.{given};
ghost use Rattle.frame_side.specs.Side.{head_of, last_pair, second_flag, side_of};
ghost use Rattle.frame_side.specs.Sound.{GoodHead, GoodFlags, GoodTail, GoodSide};

use frame_bits::{Step, read_bits};
use frame_settings::{Setting, tns_filters};
pub use frame_shape::Shape;
use frame_shape::read_shape;
use refusals::Cause;

#[derive(Clone, Copy, Default)]
pub struct Head {
    pub bandwidth: u8,
    pub last_line: u16,
    pub lsb_mode: u8,
    pub gain: u8,
}

#[derive(Clone, Copy, Default)]
pub struct Flags {
    pub tns_0: u8,
    pub tns_1: u8,
    pub pitch_present: u8,
}

#[derive(Clone, Copy, Default)]
pub struct Tail {
    pub filter_flag: u8,
    pub pitch_index: u16,
    pub noise_level: u8,
}

// The side information; a field that is not sent is 0.
#[derive(Clone, Copy, Default)]
pub struct Side {
    pub head: Head,
    pub flags: Flags,
    pub shape: Shape,
    pub tail: Tail,
}

// The field of a last line: which pair is the last.
pub fn last_pair(last: usize) -> usize
    ensures { result ≡ last_pair last }
{
    (last / 2).saturating_sub(1)
}

fn read_head(s: &[u8], r: Setting) -> Result<Step<Head, usize>, Cause>
    requires known { Known r }
    requires sized { Sized s.now }
    ensures result_value { given result ≡ head_of s.now r }
    ensures good_head { GoodHead r result }
{
    let bandwidth = read_bits(s, 0, r.bandwidth);
    if r.index < bandwidth.value {
        return Err(Cause::Bandwidth);
    }
    let pair = read_bits(s, bandwidth.next, r.pair);
    let last_line = 2 * (pair.value + 1);
    if r.lines < last_line {
        return Err(Cause::LastLine);
    }
    let lsb_mode = read_bits(s, pair.next, 1);
    let gain = read_bits(s, lsb_mode.next, 8);
    let head = Head {
        bandwidth: bandwidth.value as u8,
        last_line: last_line as u16,
        lsb_mode: lsb_mode.value as u8,
        gain: gain.value as u8,
    };
    Ok(Step {
        value: head,
        next: gain.next,
    })
}

// The bits of the second filter's flag.
pub fn second_flag(filters: usize, bandwidth: usize) -> usize
    requires le_filters { 1 ≤ filters }
    requires filters_bound { filters ≤ 2 }
    ensures value { result ≡ second_flag filters bandwidth }
    ensures upper_bound { result ≤ 1 }
{
    if bandwidth < 3 { 0 } else { filters - 1 }
}

fn read_flags(s: &[u8], filters: usize, bandwidth: usize, p: usize) -> Step<Flags, usize>
    requires le_filters { 1 ≤ filters }
    requires filters_bound { filters ≤ 2 }
    requires p_bound { p ≤ 20 }
    requires sized { Sized s.now }
    ensures { GoodFlags s.now filters bandwidth p result }
{
    let tns_0 = read_bits(s, p, 1);
    let tns_1 = read_bits(s, tns_0.next, second_flag(filters, bandwidth));
    let pitch_present = read_bits(s, tns_1.next, 1);
    Step {
        value: Flags {
            tns_0: tns_0.value as u8,
            tns_1: tns_1.value as u8,
            pitch_present: pitch_present.value as u8,
        },
        next: pitch_present.next,
    }
}

fn read_tail(s: &[u8], pitch: usize, p: usize) -> Step<Tail, usize>
    requires pitch_bound { pitch < 2 }
    requires p_bound { p ≤ 61 }
    requires sized { Sized s.now }
    ensures { GoodTail s.now pitch p result }
{
    let filter_flag = read_bits(s, p, pitch);
    let pitch_index = read_bits(s, filter_flag.next, 9 * pitch);
    let noise_level = read_bits(s, pitch_index.next, 3);
    Step {
        value: Tail {
            filter_flag: filter_flag.value as u8,
            pitch_index: pitch_index.value as u16,
            noise_level: noise_level.value as u8,
        },
        next: noise_level.next,
    }
}

// The side information, or cause 1, 2 or 3.
pub fn read_side(s: &[u8], r: Setting) -> Result<Step<Side, usize>, Cause>
    requires known { Known r }
    requires sized { Sized s.now }
    ensures result_value { given result ≡ side_of s.now r }
    ensures good_side { GoodSide r result }
{
    let head = read_head(s, r)?;
    let bandwidth = usize::from(head.value.bandwidth);
    let flags = read_flags(s, tns_filters(r.duration), bandwidth, head.next);
    let shape = read_shape(s, flags.next)?;
    let tail = read_tail(s, usize::from(flags.value.pitch_present), shape.next);
    let side = Side {
        head: head.value,
        flags: flags.value,
        shape: shape.value,
        tail: tail.value,
    };
    Ok(Step {
        value: side,
        next: tail.next,
    })
}
