// One pair of lines (5.4.2.7): escapes, a last symbol, the signs and the next context. Each function equals its definition in
// specs/Pair.antt; specs/Sound.antt has the bounds that one step gives the next.
// Inner: `frame_pairs` stands over it, `writer_pair` over `row_of` and `next_context`. It asks for a frame of 20 to 400 bytes and for a
// cursor of `frame_coder`.
#![tactic(auto)]

ghost use Rattle.std.specs.Prelude.{◌≡◌, ◌+◌, ◌*◌, ◌^◌, ◌≤◌, ◌<◌, ◌/◌, ◌%◌};
ghost use Rattle.coder_tables.specs.Tables.{look_table, spectrum_table};
ghost use Rattle.frame_settings.specs.Settings.{Sized};
ghost use Rattle.frame_bits.specs.Read.{given};
ghost use Rattle.frame_pair.specs.Pair.{row_of, plane_of, last_of, sign_of, context_of, pair_of};
ghost use Rattle.frame_coder.specs.Sound.{Ready};
ghost use Rattle.frame_pair.specs.Sound.{Escaped, GoodSign, GoodPlane, GoodLast, GoodPair};

use coder_tables::{lookup, spectrum};
use frame_bits::{Step, read_bit};
use frame_coder::{Coder, decode};
use refusals::Cause;

// The cursors of both streams.
#[derive(Clone, Copy)]
pub struct Streams {
    pub coder: Coder,
    pub side: usize,
}

// The two values of a pair so far.
#[derive(Clone, Copy)]
pub struct Values {
    pub x: usize,
    pub y: usize,
}

// A pair's last symbol, its two values so far and its level, which is the number of escapes before it.
#[derive(Clone, Copy)]
pub struct Last {
    pub symbol: usize,
    pub x: usize,
    pub y: usize,
    pub level: usize,
}

// Two lines as magnitudes and sign bits, the pair's level, and the context that it leaves.
#[derive(Clone, Copy)]
pub struct Pair {
    pub x: usize,
    pub xsign: usize,
    pub y: usize,
    pub ysign: usize,
    pub level: usize,
    pub context: usize,
}

// Where the row of a context and a level starts.
pub fn row_of(base: usize, level: usize) -> usize
    requires { base < 1024 }
    ensures value { result ≡ row_of look_table base level }
    ensures upper_bound { result < 65536 }
{
    let look = lookup();
    usize::from(look[4 * base + level.min(3)]) * 18
}

// A value with the bits of a above its lowest `level` bits.
fn above(x: usize, a: usize, level: usize) -> usize
    requires x_bound { x < 2 ^ level }
    requires a_bound { a < 4 }
    requires level_bound { level ≤ 13 }
    ensures { result ≡ x + a * 2 ^ level }
{
    x + (a << level)
}

// An escape's bits, one for each value; at level 0 of LSB mode 1 they come late.
fn read_plane(
    s: &[u8],
    lsb: usize,
    level: usize,
    v: Values,
    p: usize,
) -> Result<Step<Values, usize>, Cause>
    requires sized { Sized s.now }
    requires escaped { Escaped lsb level v.x v.y }
    ensures result_value { given result ≡ plane_of s.now lsb level v.x v.y p }
    ensures good_plane { GoodPlane lsb level result }
{
    if level < lsb {
        return Ok(Step { value: v, next: p });
    }
    let a = read_bit(s, p)?;
    let b = read_bit(s, a.next)?;
    Ok(Step {
        value: Values {
            x: above(v.x, a.value, level),
            y: above(v.y, b.value, level),
        },
        next: b.next,
    })
}

// The escapes of a pair up to its last symbol.
fn read_last(s: &[u8], lsb: usize, base: usize, from: Streams) -> Result<Step<Last, Streams>, Cause>
    requires ready { Ready s.now from.coder 32768 }
    requires lsb_bound { lsb < 2 }
    requires base_bound { base < 1024 }
    ensures result_value { given result
        ≡ last_of s.now look_table spectrum_table lsb base 14 0 0 0 from.coder from.side }
    ensures good_last { GoodLast s.now lsb from.coder result }
{
    let mut at = from;
    let mut v = Values { x: 0, y: 0 };
    for level in 0..14 {
        let got = decode(s, spectrum(), row_of(base, level), 16, at.coder)?;
        if got.value < 16 {
            return Ok(Step {
                value: Last {
                    symbol: got.value,
                    x: v.x,
                    y: v.y,
                    level,
                },
                next: Streams {
                    coder: got.next,
                    side: at.side,
                },
            });
        }
        let plane = read_plane(s, lsb, level, v, at.side)?;
        v = plane.value;
        at = Streams {
            coder: got.next,
            side: plane.next,
        };
    }
    Err(Cause::Escapes)
}

// The sign bit of a magnitude; one of 0 has none.
fn read_sign(s: &[u8], m: usize, p: usize) -> Result<Step<usize, usize>, Cause>
    requires { Sized s.now }
    ensures result_value { given result ≡ sign_of s.now m p }
    ensures good_sign { GoodSign result }
{
    if m == 0 {
        return Ok(Step { value: 0, next: p });
    }
    read_bit(s, p)
}

pub fn next_context(c: usize, v: usize, level: usize) -> usize
    requires { v < 16 }
    ensures value { result ≡ context_of c (v % 4) (v / 4) level }
    ensures upper_bound { result < 256 }
{
    let l = level.min(3);
    let next = if l <= 1 {
        1 + (v % 4 + v / 4) * (l + 1)
    } else {
        12 + l
    };
    c % 16 * 16 + next
}

// One pair of lines: escapes, the last symbol, low bits and signs.
pub fn read_pair(
    s: &[u8],
    lsb: usize,
    base: usize,
    context: usize,
    from: Streams,
) -> Result<Step<Pair, Streams>, Cause>
    requires ready { Ready s.now from.coder 32768 }
    requires lsb_bound { lsb < 2 }
    requires base_bound { base < 1024 }
    ensures result_value { given result
        ≡ pair_of s.now look_table spectrum_table lsb base context from.coder from.side }
    ensures good_pair { GoodPair s.now lsb from.coder result }
{
    let last = read_last(s, lsb, base, from)?;
    let l = last.value;
    let coder = last.next.coder;
    let x = above(l.x, l.symbol % 4, l.level);
    let y = above(l.y, l.symbol / 4, l.level);
    let xsign = read_sign(s, x, last.next.side)?;
    let ysign = read_sign(s, y, xsign.next)?;
    if s.len() + 2 < coder.at + ysign.next / 8 {
        return Err(Cause::Outside);
    }
    Ok(Step {
        value: Pair {
            x,
            xsign: xsign.value,
            y,
            ysign: ysign.value,
            level: l.level,
            context: next_context(context, l.symbol, l.level),
        },
        next: Streams {
            coder,
            side: ysign.next,
        },
    })
}
