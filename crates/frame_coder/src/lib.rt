// The arithmetic stream (5.4.2.9): three bytes first, then symbols of rows of cumulative frequencies. Each function equals its definition
// in specs/Symbol.antt, and no byte outside the frame is taken.
// Inner: `frame_tns`, `frame_pair` and those over them stand over it, `writer_stream` over `Coder`. It asks for a frame of 20 to
// 400 bytes, for a row that rises from 0 to 1,024, and for a cursor that it gave itself (`Sound`).
#![tactic(auto)]

ghost use Rattle.std.specs.Prelude.{◌≡◌, ◌+◌, ◌*◌, ◌<◌};
ghost use Rattle.frame_settings.specs.Settings.{Sized};
ghost use Rattle.frame_bits.specs.Read.{given};
ghost use Rattle.frame_coder.specs.Symbol.{start_of, largest, refill_of, symbol_of};
ghost use Rattle.frame_coder.specs.Sound.{Sound, Ready, SymbolRow, Scaled, Narrow, Refilled, GoodSymbol};

use frame_bits::Step;
use refusals::Cause;

// The clause's low and range; `at` is its bp, and `taken` the number of symbols taken whole.
#[derive(Clone, Copy)]
pub struct Coder {
    pub low: usize,
    pub range: usize,
    pub at: usize,
    pub taken: usize,
}

// The coder at the first three bytes of the stream.
pub fn start(s: &[u8]) -> Coder
    requires { Sized s.now }
    ensures value { result ≡ start_of s.now }
    ensures sound { Sound s.now result }
{
    Coder {
        low: (usize::from(s[0]) * 256 + usize::from(s[1])) * 256 + usize::from(s[2]),
        range: 16777215,
        at: 3,
        taken: 0,
    }
}

// A symbol, and its row's frequencies below and above it, scaled.
#[derive(Clone, Copy)]
struct Found {
    symbol: usize,
    below: usize,
    above: usize,
}

// The largest symbol whose cumulative frequency, scaled by t, is not above low. The end of the row is above it, so the search ends there.
fn find(cum: &[u16], row: usize, t: usize, low: usize, last: usize) -> Found
    requires symbol_row { SymbolRow cum.now row last }
    requires t_bound { t < 16384 }
    requires low_bound { low < t * 1024 }
    ensures symbol_value { result.symbol ≡ largest cum.now row t low last }
    ensures scaled { Scaled cum.now row t low last result }
{
    let mut v = 0;
    let mut below = 0;
    let mut above = t * usize::from(cum[row + 1]);
    // No `for` over the row: it would test the row's end at each step, and the row ends above low.
    while above <= low {
        prove!(v < last);
        v = v + 1;
        below = above;
        above = t * usize::from(cum[row + (v + 1)]);
    }
    Found {
        symbol: v,
        below,
        above,
    }
}

// Bytes are taken until the range is wide again, at most two: a `while` as the clause has it, since no count says when.
fn refill(s: &[u8], v: usize, c: Coder) -> Result<Step<usize, Coder>, Cause>
    requires sized { Sized s.now }
    requires narrow { Narrow s.now c }
    ensures result_value { given result ≡ refill_of s.now 2 v c }
    ensures refilled { Refilled s.now v c result }
{
    let mut next = c;
    while next.range < 65536 {
        if s.len() <= next.at {
            return Err(Cause::Outside);
        }
        next.low = next.low * 256 % 16777216 + usize::from(s[next.at]);
        next.range = next.range * 256;
        next.at = next.at + 1;
    }
    Ok(Step { value: v, next })
}

// A symbol 0 .. last of the row that starts at entry `row`.
pub fn decode(
    s: &[u8],
    cum: &[u16],
    row: usize,
    last: usize,
    c: Coder,
) -> Result<Step<usize, Coder>, Cause>
    requires ready { Ready s.now c 65536 }
    requires symbol_row { SymbolRow cum.now row last }
    ensures result_value { given result ≡ symbol_of s.now cum.now row last c }
    ensures good_symbol { GoodSymbol s.now last c result }
{
    let t = c.range / 1024;
    if t * 1024 <= c.low {
        return Err(Cause::Scaled);
    }
    let f = find(cum, row, t, c.low, last);
    refill(
        s,
        f.symbol,
        Coder {
            low: c.low - f.below,
            range: f.above - f.below,
            at: c.at,
            taken: c.taken + 1,
        },
    )
}
