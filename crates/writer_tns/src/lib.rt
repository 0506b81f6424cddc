// The TNS data written (5.3.14): a filter's order and coefficients as symbols. Each function equals its definition in specs/Tns.antt of
// `writer_laws`.
// Inner: `writer_frame` stands over it. It asks for an order up to 8 and coefficients up to 16, and for a stream of `writer_stream`.
#![tactic(auto)]

ghost use Rattle.std.specs.Prelude.{◌≡◌, ◌≤◌, ◌<◌, length};
ghost use Rattle.coder_tables.specs.Tables.{order_table, coefficient_table};
ghost use Rattle.writer_laws.specs.Stream.{coded_all, whole_of};
ghost use Rattle.writer_steps.specs.Flow.{Flows};
ghost use Rattle.writer_laws.specs.Tns.{coefficient_items, filter_items};
ghost use Rattle.writer_steps.specs.Flow.{Sendable, Within};

use coder_tables::{tns_coefficients, tns_order};
use frame_coder::Coder;
use writer_stream::encode;

// The first n coefficients, each of its own row.
fn coefficients(l: &[u8], n: usize, first: Coder, front: &mut [u8]) -> Coder
    requires n_bound { n ≤ 8 }
    requires l_len { length l.now ≡ 8 }
    requires sendable { Sendable n l.now }
    requires flows { Flows front.old first }
    requires at_bound { first.at ≤ 256 }
    requires taken_bound { first.taken < 32768 }
    ensures result_after { whole_of front.new result
        ≡ coded_all (coefficient_items coefficient_table l.now n 0) (whole_of front.old first) }
    ensures flows_2 { Flows front.new result }
    ensures within { Within n first result }
{
    let rows = tns_coefficients();
    let mut c = first;
    for (k, v) in l[..n].iter().enumerate() {
        c = encode(rows, k * 18, usize::from(*v), c, front);
    }
    c
}

// One filter: nothing is sent where its order is 0. w is the weighting's row of the orders.
pub fn write_filter(w: usize, order: usize, l: &[u8], c: Coder, front: &mut [u8]) -> Coder
    requires w_bound { w < 2 }
    requires order_bound { order ≤ 8 }
    requires l_len { length l.now ≡ 8 }
    requires sendable { Sendable order l.now }
    requires flows { Flows front.old c }
    requires at_bound { c.at ≤ 128 }
    requires taken_bound { c.taken < 16384 }
    ensures result_after { whole_of front.new result
        ≡ coded_all (filter_items order_table coefficient_table w order l.now) (whole_of front.old c) }
    ensures flows_2 { Flows front.new result }
    ensures within { Within 9 c result }
{
    if order == 0 {
        return c;
    }
    let d = encode(tns_order(), w * 9, order - 1, c, front);
    coefficients(l, order, d, front)
}
