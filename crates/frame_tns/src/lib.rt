// The TNS data (5.4.2.7): a filter's order and coefficients. Each function equals its definition in specs/Tns.antt.
// Inner: `frame_answers` cites it, `frame_arithmetic` stands over it. It asks for a frame of 20 to 400 bytes and a setting's duration, for
// room of zeros and for a cursor of `frame_coder`.
#![tactic(auto)]

ghost use Rattle.std.specs.Prelude.{◌≡◌, ◌≤◌, ◌<◌, length};
ghost use Rattle.coder_tables.specs.Tables.{order_table, coefficient_table};
ghost use Rattle.frame_tns.specs.Tns.{unused, coefficients_of, coefficients_given, filter_of, filter_given};
ghost use Rattle.frame_coder.specs.Sound.{Ready};
ghost use Rattle.frame_tns.specs.Sound.{GoodCoefficients, GoodFilter};

use coder_tables::{tns_coefficients, tns_order};
use frame_bits::Step;
use frame_coder::{Coder, decode};
use frame_settings::{highest_order, tns_weighting};
use refusals::Cause;

// The first n coefficients, each of its own row, in `out`; and the next cursor.
fn coefficients(s: &[u8], n: usize, out: &mut [u8], first: Coder) -> Result<Coder, Cause>
    requires ready { Ready s.now first 32768 }
    requires n_bound { n ≤ 8 }
    requires out_len { length out.old ≡ 8 }
    ensures out_after { coefficients_given result out.new
        ≡ coefficients_of s.now coefficient_table n 0 out.old first }
    ensures good_coefficients { GoodCoefficients s.now n first result }
{
    let rows = tns_coefficients();
    let mut c = first;
    for k in 0..n {
        let symbol = decode(s, rows, k * 18, 16, c)?;
        out[k] = symbol.value as u8;
        c = symbol.next;
    }
    Ok(c)
}

// One filter's order, its coefficients in `out`, which comes as eight zeros: nothing is sent where its flag is 0, and no order above the
// highest.
pub fn filter(
    s: &[u8],
    duration: usize,
    flag: u8,
    out: &mut [u8],
    c: Coder,
) -> Result<Step<u8, Coder>, Cause>
    requires ready { Ready s.now c 16384 }
    requires duration_bound { duration ≤ 40 }
    requires out_value { out.old ≡ unused }
    ensures out_after { filter_given result out.new
        ≡ filter_of s.now order_table coefficient_table duration flag c }
    ensures good_filter { GoodFilter s.now duration c result }
{
    if flag == 0 {
        return Ok(Step { value: 0, next: c });
    }
    let w = tns_weighting(duration, s.len());
    let symbol = decode(s, tns_order(), w * 9, 7, c)?;
    let order = symbol.value + 1;
    if highest_order(duration) < order {
        return Err(Cause::Order);
    }
    let next = coefficients(s, order, out, symbol.next)?;
    Ok(Step {
        value: order as u8,
        next,
    })
}
