// Residual data (5.4.2.8): the bits left, the residual bits and the late low bits of one line, each equal to its definition in
// specs/Residual.antt. Nothing that is read here leaves the frame.
// Inner: `frame_finish` and `frame_spectral` stand over it, `writer_ending` and `writer_frame` over `log2` and `bits_left`. It asks for a
// frame of 20 to 400 bytes, for cursors inside it, for lines in range, and for a buffer of at most 400 residual bits, no longer than the
// lines.
#![tactic(auto)]

ghost use Rattle.std.specs.Prelude.{◌≡◌, ◌+◌, ◌*◌, ◌≤◌, ◌<◌, length, nat_abs};
ghost use Rattle.frame_residual.specs.Residual.{log2_of, left_of, left_given, residual_of, residual_given, away};
ghost use Rattle.frame_residual.specs.Residual.{born_of, late_of, late_given};
ghost use Rattle.frame_residual.specs.Sound.{GoodLeft, LeftIn, GoodLate};

use frame_bits::bit_at;
use frame_coder::Coder;
use refusals::Cause;

// floor (log2 r), at most 23.
pub fn log2(r: usize) -> usize
    ensures value { result ≡ log2_of r 23 }
    ensures upper_bound { result ≤ 23 }
{
    match r.checked_ilog2() {
        Some(k) => k.min(23) as usize,
        None => 0,
    }
}

// The bits between the two streams, or cause 7 where there are fewer than none.
pub fn bits_left(bytes: usize, p: usize, c: Coder) -> Result<usize, Cause>
    requires bytes_bound { bytes ≤ 400 }
    requires p_bound { p ≤ 8 * bytes + 23 }
    requires le_at { 3 ≤ c.at }
    requires at_le_bytes { c.at ≤ bytes }
    requires range_bound { c.range < 16777216 }
    ensures p_value { left_given result p ≡ left_of bytes p c }
    ensures good_left { GoodLeft bytes p result }
{
    let used = p + (8 * (c.at - 3) + (25 - log2(c.range)));
    (8 * bytes).checked_sub(used).ok_or(Cause::Residual)
}

// The residual bits of LSB mode 0, packed into `bits`; their number.
pub fn read_residual(
    s: &[u8],
    lines: &[i32],
    p: usize,
    left: usize,
    n: usize,
    bits: &mut [u8],
) -> usize
    requires left_in { LeftIn s.now p left }
    requires n_in_bounds { n ≤ length lines.now }
    requires bits_len { length bits.old ≡ n }
    ensures bits_after { residual_given result bits.new
        ≡ residual_of s.now lines.now p left n 0 0 bits.old }
    ensures upper_bound { result ≤ n }
{
    let mut count = 0;
    for line in &lines[..n] {
        if *line != 0 {
            if left <= count {
                return count;
            }
            bits[count] = bit_at(s, p + count) as u8;
            count += 1;
        }
    }
    count
}

// What a line becomes by its late low bits, with the next cursor and the bits left.
#[derive(Clone, Copy)]
pub struct LateRead {
    pub value: i32,
    pub next: usize,
    pub left: usize,
}

// One further from 0.
fn further(v: i32) -> i32
    requires { nat_abs v ≤ 32767 }
    ensures { result ≡ away v }
{
    if v < 0 { v - 1 } else { v + 1 }
}

// The sign of a line that was 0, where a bit is left.
fn born(s: &[u8], p: usize, left: usize) -> Option<LateRead>
    requires { LeftIn s.now p left }
    ensures result_value { late_given result ≡ born_of s.now p left }
    ensures good_late { GoodLate 0 (p + left) result }
{
    let fewer = left.checked_sub(1)?;
    let value = if bit_at(s, p) == 0 { 1 } else { -1 };
    Some(LateRead {
        value,
        next: p + 1,
        left: fewer,
    })
}

// The late low bits of a line, where a bit is left for each.
pub fn read_late(s: &[u8], v: i32, p: usize, left: usize) -> Option<LateRead>
    requires left_in { LeftIn s.now p left }
    requires v_bound { nat_abs v ≤ 32767 }
    ensures result_value { late_given result ≡ late_of s.now v p left }
    ensures good_late { GoodLate (nat_abs v) (p + left) result }
{
    let fewer = left.checked_sub(1)?;
    if bit_at(s, p) == 0 {
        return Some(LateRead {
            value: v,
            next: p + 1,
            left: fewer,
        });
    }
    if v == 0 {
        return born(s, p + 1, fewer);
    }
    Some(LateRead {
        value: further(v),
        next: p + 1,
        left: fewer,
    })
}
