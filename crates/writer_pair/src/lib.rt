// One pair of lines written (5.3.14): escapes, a last symbol, low bits and signs, and the next context. Each function equals its definition
// in specs/Pair.antt of `writer_laws`.
// Inner: `writer_pairs` stands over it. It asks for magnitudes up to 32,767, and for streams of
// `writer_stream` and `writer_bits` with room for a pair.
#![tactic(auto)]

ghost use Rattle.std.specs.Prelude.{◌≡◌, ◌+◌, ◌/◌, ◌^◌, ◌≤◌, ◌<◌, nat_abs, length};
ghost use Rattle.coder_tables.specs.Tables.{look_table, spectrum_table};
ghost use Rattle.frame_pair.specs.Pair.{context_of};
ghost use Rattle.writer_steps.specs.Cursors.{Open, Puts};
ghost use Rattle.writer_laws.specs.Pair.{level_of, walk_items, walk_bits, sign_bits, symbol_at, pair_items, pair_bits};
ghost use Rattle.writer_steps.specs.Sends.{Sends, Sent};

use coder_tables::spectrum;
use frame_coder::Coder;
use frame_pair::{next_context, row_of};
use writer_bits::put;
use writer_steps::{Cursor, PairSent, Walked};
use writer_stream::encode;

// The escapes of a pair with their low bits, and its last symbol.
fn write_levels(
    base: usize,
    x: usize,
    y: usize,
    first: Coder,
    start: Cursor,
    front: &mut [u8],
    side: &mut [u8],
) -> Walked
    requires base_bound { base < 1024 }
    requires x_bound { x ≤ 32767 }
    requires y_bound { y ≤ 32767 }
    requires sends { Sends 480 32768 3500 front.old side.old first start }
    ensures level_value { result.level ≡ level_of x y }
    ensures symbol_value { result.symbol ≡ symbol_at x y (level_of x y) }
    ensures symbol_bound { result.symbol < 16 }
    ensures sent { Sent (walk_items look_table spectrum_table base (symbol_at x y (level_of x y)) (level_of x y) 0)
        (walk_bits x y (level_of x y) 0)
        front.old front.new side.old side.new first result.coder start result.side }
    ensures sends_2 { Sends (first.at + 28) (first.taken + 14) (start.at + 26) front.new side.new result.coder result.side }
{
    let cum = spectrum();
    let mut a = x;
    let mut b = y;
    let mut level = 0;
    let mut c = first;
    let mut p = start;
    // No `for`: the two values end the escapes, and no count.
    while 4 <= a || 4 <= b {
        c = encode(cum, row_of(base, level), 16, c, front);
        p = put(a % 2 + 2 * (b % 2), 2, p, side);
        a = a / 2;
        b = b / 2;
        level = level + 1;
    }
    let symbol = a + 4 * b;
    let last = encode(cum, row_of(base, level), symbol, c, front);
    Walked {
        symbol,
        level,
        coder: last,
        side: p,
    }
}

// The sign bit of a line; one that is 0 has none. A sign is no branch, since nothing foretells it.
fn write_sign(u: i32, p: Cursor, side: &mut [u8]) -> Cursor
    requires fact { Open side.old p }
    requires at_bound { p.at ≤ 4000 }
    ensures puts { Puts (sign_bits u) side.old side.new p result }
    ensures fact_2 { Open side.new result }
    ensures at_value { result.at ≡ p.at + length (sign_bits u) }
{
    put(usize::from(u < 0), usize::from(u != 0), p, side)
}

// One pair of lines.
pub fn write_pair(
    base: usize,
    context: usize,
    u: i32,
    v: i32,
    c: Coder,
    p: Cursor,
    front: &mut [u8],
    side: &mut [u8],
) -> PairSent
    requires base_bound { base < 1024 }
    requires u_bound { nat_abs u ≤ 32767 }
    requires v_bound { nat_abs v ≤ 32767 }
    requires sends { Sends 480 32768 3500 front.old side.old c p }
    ensures context_value { result.context
        ≡ context_of context (nat_abs u / 2 ^ level_of (nat_abs u) (nat_abs v)) (nat_abs v / 2 ^ level_of (nat_abs u) (nat_abs v))
        (level_of (nat_abs u) (nat_abs v)) }
    ensures context_bound { result.context < 256 }
    ensures sent { Sent (pair_items look_table spectrum_table base u v) (pair_bits u v)
        front.old front.new side.old side.new c result.coder p result.side }
    ensures sends_2 { Sends (c.at + 28) (c.taken + 14) (p.at + 28) front.new side.new result.coder result.side }
{
    let w = write_levels(
        base,
        u.unsigned_abs() as usize,
        v.unsigned_abs() as usize,
        c,
        p,
        front,
        side,
    );
    let coder = w.coder;
    let p1 = w.side;
    let p2 = write_sign(u, p1, side);
    let p3 = write_sign(v, p2, side);
    PairSent {
        context: next_context(context, w.symbol, w.level),
        coder,
        side: p3,
    }
}
