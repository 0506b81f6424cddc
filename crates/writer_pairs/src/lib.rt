// The pairs of a frame written one after the other (5.3.14). The function equals its definition in specs/Pairs.antt of `writer_laws`, and
// stops where both streams want more than the frame has.
// Inner: `writer_frame` stands over it. It asks as `writer_pair` does, for at most 200 pairs, for lines up to 32,767, and for a frame of at
// most 400 bytes.
#![tactic(auto)]

ghost use Rattle.std.specs.Prelude.{◌+◌, ◌*◌, ◌≤◌, length};
ghost use Rattle.coder_tables.specs.Tables.{look_table, spectrum_table};
ghost use Rattle.frame_pairs.specs.Sound.{Small};
ghost use Rattle.writer_steps.specs.Sends.{Sends, PairsAre};
ghost use Rattle.writer_laws.specs.Pairs.{pairs_items, pairs_bits};

use frame_coder::Coder;
use frame_pairs::{PairSetting, base_of};
use writer_pair::write_pair;
use writer_steps::{Cursor, PairsSent};

// The first n pairs, into a frame of so many bytes.
pub fn write_pairs(
    o: PairSetting,
    lines: &[i32],
    n: usize,
    bytes: usize,
    first: Coder,
    start: Cursor,
    front: &mut [u8],
    side: &mut [u8],
) -> Option<PairsSent>
    requires offset_bound { o.offset ≤ 512 }
    requires le_n { 1 ≤ n }
    requires n_bound { n ≤ 200 }
    requires n_in_bounds { 2 * n ≤ length lines.now }
    requires small { Small lines.now }
    requires bytes_bound { bytes ≤ 400 }
    requires sends { Sends 39 18 74 front.old side.old first start }
    ensures { PairsAre bytes (pairs_items look_table spectrum_table o lines.now n 0 0)
        (pairs_bits lines.now n 0)
        front.old front.new side.old side.new first start result }
{
    let mut c = first;
    let mut p = start;
    let mut context = 0;
    for k in 0..n {
        let base = base_of(context, o.offset, o.half, 2 * k);
        let w = write_pair(
            base,
            context,
            lines[2 * k],
            lines[2 * k + 1],
            c,
            p,
            front,
            side,
        );
        c = w.coder;
        p = w.side;
        context = w.context;
        if 8 * bytes < 8 * (c.at - 3) + 2 + p.at {
            return None;
        }
    }
    Some(PairsSent { coder: c, side: p })
}
