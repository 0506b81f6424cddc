// The pairs of a frame one after the other (5.4.2.7), into lent lines and levels. Each function equals its definition in specs/Pairs.antt.
// Inner: `frame_finish` cites it, `frame_spectral` stands over it, `writer_pairs` over `base_of`. It asks as `frame_pair` does, for at most
// 200 pairs, and for 400 lines and 200 levels.
#![tactic(auto)]

ghost use Rattle.std.specs.Prelude.{◌≡◌, ◌+◌, ◌*◌, ◌≤◌, ◌<◌, length};
ghost use Rattle.coder_tables.specs.Tables.{look_table, spectrum_table};
ghost use Rattle.frame_pairs.specs.Pairs.{base_of, line_of, store_of, pairs_of, pairs_given};
ghost use Rattle.frame_pairs.specs.Sound.{PairsFrom, Working, GoodPairs};

use frame_pair::{Pair, Streams, read_pair};
use refusals::Cause;

// What all pairs are read with: the LSB mode, the offset of the rate, and NE / 2.
#[derive(Clone, Copy)]
pub struct PairSetting {
    pub lsb: usize,
    pub offset: usize,
    pub half: usize,
}

pub fn base_of(context: usize, offset: usize, half: usize, k: usize) -> usize
    requires context_bound { context < 256 }
    requires offset_bound { offset ≤ 512 }
    ensures value { result ≡ base_of context offset half k }
    ensures upper_bound { result < 1024 }
{
    let past = if half < k { 256 } else { 0 };
    context + offset + past
}

// A line from its magnitude and its sign bit.
fn line(m: usize, sign: usize) -> i32
    requires { m ≤ 32767 }
    ensures { result ≡ line_of m sign }
{
    if sign == 0 { m as i32 } else { -(m as i32) }
}

// The two lines of pair k.
fn store(lines: &mut [i32], k: usize, q: Pair)
    requires lines_len { length lines.old ≡ 400 }
    requires k_bound { k < 200 }
    requires x_bound { q.x ≤ 32767 }
    requires y_bound { q.y ≤ 32767 }
    ensures { lines.new ≡ store_of lines.old k q }
{
    lines[2 * k] = line(q.x, q.xsign);
    lines[2 * k + 1] = line(q.y, q.ysign);
}

// n pairs from line 0 on: the cursors behind them, or a cause; the lines and levels stand in the lent slices.
pub fn read_pairs(
    s: &[u8],
    o: PairSetting,
    n: usize,
    from: Streams,
    lines: &mut [i32],
    levels: &mut [u8],
) -> Result<Streams, Cause>
    requires pairs_from { PairsFrom s.now o n from.coder from.side }
    requires working { Working o.lsb lines.old levels.old }
    ensures levels_after { pairs_given result lines.new levels.new
        ≡ pairs_of s.now look_table spectrum_table o n 0 0 from.coder from.side
        lines.old levels.old }
    ensures good_pairs { GoodPairs s.now o.lsb n from.coder result lines.new levels.new }
{
    let mut at = from;
    let mut context = 0;
    for k in 0..n {
        let base = base_of(context, o.offset, o.half, 2 * k);
        let pair = read_pair(s, o.lsb, base, context, at)?;
        let q = pair.value;
        store(lines, k, q);
        levels[k] = q.level as u8;
        context = q.context;
        at = pair.next;
    }
    Ok(at)
}
