// The arithmetic stream written (5.3.14): symbols of rows of cumulative frequencies. The bytes put out stand in a lent slice, so that a
// carry goes back into them. Each function equals its definition in specs/Stream.antt of `writer_laws`.
// Inner: `writer_tns`, `writer_pair` and those over them stand over it. It asks for a symbol's part of a row, for a stream that it gave
// itself (`Flows`), and for room for two bytes.
#![tactic(auto)]

ghost use Rattle.std.specs.Prelude.{◌≡◌, ◌+◌, ◌*◌, ◌^◌, ◌≤◌, ◌<◌, length, replicate};
ghost use Rattle.writer_laws.specs.Stream.{send_start, widened, coded, front_of, whole_of};
ghost use Rattle.writer_steps.specs.Flow.{Part, Streams, Flows, OneMore, Carried};

use frame_coder::Coder;

// The stream before its first symbol; nothing is put out.
pub fn start(front: &[u8]) -> Coder
    requires { front.now ≡ replicate 512 0 }
    ensures result_value { whole_of front.now result ≡ send_start }
    ensures flows { Flows front.now result }
{
    Coder {
        low: 0,
        range: 16777215,
        at: 3,
        taken: 0,
    }
}

// One more in the first n bytes: those of 255 become 0, and the one before them grows.
pub fn carry(front: &mut [u8], n: usize)
    requires n_in_bounds { n ≤ length front.old }
    requires n_bound { front_of front.old n + 1 < 2 ^ (8 * n) }
    ensures { Carried n front.old front.new }
{
    // No `for`: the first byte below 255 ends it, and there is one.
    let mut j = n - 1;
    while front[j] == 255 {
        front[j] = 0;
        j = j - 1;
    }
    front[j] = front[j] + 1;
}

// Bytes are put out until the range is wide again: a `while` as the clause has it, since no count says when.
fn widen(c: Coder, front: &mut [u8]) -> Coder
    requires streams { Streams 64 front.old c }
    requires at_bound { c.at ≤ 512 }
    ensures result_after { whole_of front.new result ≡ widened 2 (whole_of front.old c) }
    ensures flows { Flows front.new result }
    ensures at_bound_2 { result.at ≤ c.at + 2 }
    ensures taken_value { result.taken ≡ c.taken }
{
    let mut low = c.low;
    let mut range = c.range;
    let mut at = c.at;
    let taken = c.taken;
    while range < 65536 {
        front[at - 3] = (low / 65536) as u8;
        low = low % 65536 * 256;
        range = range * 256;
        at = at + 1;
    }
    Coder {
        low,
        range,
        at,
        taken,
    }
}

// Symbol v of the row that starts at entry `row`.
pub fn encode(cum: &[u16], row: usize, v: usize, c: Coder, front: &mut [u8]) -> Coder
    requires part { Part cum.now row v }
    requires flows { Flows front.old c }
    requires at_bound { c.at ≤ 512 }
    requires taken_bound { c.taken < 65536 }
    ensures result_after { whole_of front.new result ≡ coded cum.now row v (whole_of front.old c) }
    ensures flows_2 { Flows front.new result }
    ensures one_more { OneMore c result }
{
    let range = c.range;
    let base = c.low;
    let t = range / 1024;
    let below = t * usize::from(cum[row + v]);
    let above = t * usize::from(cum[row + (v + 1)]);
    let at = c.at;
    let mut low = base + below;
    if 16777216 <= low {
        low = low - 16777216;
        carry(front, at - 3);
    }
    widen(
        Coder {
            low,
            range: above - below,
            at,
            taken: c.taken + 1,
        },
        front,
    )
}
