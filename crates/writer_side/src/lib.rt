// The side information written (5.3.14), field after field: what is written is the bits of the fields' list (specs/Fields.antt of
// `frame_bits`) with the values of specs/SideBits.antt of `writer_laws`.
// Inner: `writer_frame` stands over it. It asks for a known setting, for side information that fits its fields, and for a cursor of
// `writer_bits`.
#![tactic(auto)]

ghost use Rattle.std.specs.Prelude.{◌≡◌, true, ◌+◌, ◌≤◌, ◌<◌, replicate};
ghost use Rattle.frame_bits.specs.Fields.{list_bits, list_fits};
ghost use Rattle.frame_settings.specs.Settings.{Known};
ghost use Rattle.frame_shape.specs.Shape.{shape_fields};
ghost use Rattle.frame_side.specs.Side.{head_fields, flags_fields, tail_fields, side_fields};
ghost use Rattle.writer_laws.specs.SideBits.{head_values, flags_values, shape_values, tail_values, side_values};
ghost use Rattle.writer_steps.specs.Cursors.{Open, Kept, Puts};

use frame_settings::{Setting, tns_filters};
use frame_side::{Flags, Head, Shape, Side, Tail, last_pair, second_flag};
use writer_bits::put;
use writer_steps::Cursor;

#[tactic(auto, using(crate::proofs::Fields::head_fit))]
fn put_head(r: Setting, h: Head, c: Cursor, side: &mut [u8]) -> Cursor
    requires known { Known r }
    requires h_value { list_fits (head_fields r) (head_values h) ≡ true }
    requires fact { Open side.old c }
    requires at_bound { c.at ≤ 128 }
    ensures puts { Puts (list_bits (head_fields r) (head_values h)) side.old side.new c result }
    ensures fact_2 { Open side.new result }
    ensures at_bound_2 { result.at ≤ c.at + 20 }
{
    let c1 = put(usize::from(h.bandwidth), r.bandwidth, c, side);
    let c2 = put(last_pair(usize::from(h.last_line)), r.pair, c1, side);
    let c3 = put(usize::from(h.lsb_mode), 1, c2, side);
    put(usize::from(h.gain), 8, c3, side)
}

#[tactic(auto, using(crate::proofs::Fields::flags_fit))]
fn put_flags(filters: usize, bandwidth: usize, f: Flags, c: Cursor, side: &mut [u8]) -> Cursor
    requires le_filters { 1 ≤ filters }
    requires filters_bound { filters ≤ 2 }
    requires f_value { list_fits (flags_fields filters bandwidth) (flags_values f) ≡ true }
    requires fact { Open side.old c }
    requires at_bound { c.at ≤ 128 }
    ensures puts { Puts (list_bits (flags_fields filters bandwidth) (flags_values f)) side.old side.new c result }
    ensures fact_2 { Open side.new result }
    ensures at_bound_2 { result.at ≤ c.at + 3 }
{
    let c1 = put(usize::from(f.tns_0), 1, c, side);
    let second = second_flag(filters, bandwidth);
    let c2 = put(usize::from(f.tns_1), second, c1, side);
    put(usize::from(f.pitch_present), 1, c2, side)
}

#[tactic(auto, using(crate::proofs::Fields::shape_fit))]
fn put_shape(q: Shape, c: Cursor, side: &mut [u8]) -> Cursor
    requires q_value { list_fits shape_fields (shape_values q) ≡ true }
    requires fact { Open side.old c }
    requires at_bound { c.at ≤ 128 }
    ensures puts { Puts (list_bits shape_fields (shape_values q)) side.old side.new c result }
    ensures fact_2 { Open side.new result }
    ensures at_bound_2 { result.at ≤ c.at + 38 }
{
    let m = usize::from(q.mode);
    let c1 = put(usize::from(q.low), 5, c, side);
    let c2 = put(usize::from(q.high), 5, c1, side);
    let c3 = put(m, 1, c2, side);
    let c4 = put(usize::from(q.gain), 1 + m, c3, side);
    let c5 = put(usize::from(q.sign), 1, c4, side);
    put(q.joint as usize, 25 - m, c5, side)
}

#[tactic(auto, using(crate::proofs::Fields::tail_fit))]
fn put_tail(pitch: usize, t: Tail, c: Cursor, side: &mut [u8]) -> Cursor
    requires pitch_bound { pitch < 2 }
    requires t_value { list_fits (tail_fields pitch) (tail_values t) ≡ true }
    requires fact { Open side.old c }
    requires at_bound { c.at ≤ 128 }
    ensures puts { Puts (list_bits (tail_fields pitch) (tail_values t)) side.old side.new c result }
    ensures fact_2 { Open side.new result }
    ensures at_bound_2 { result.at ≤ c.at + 13 }
{
    let c1 = put(usize::from(t.filter_flag), pitch, c, side);
    let c2 = put(usize::from(t.pitch_index), 9 * pitch, c1, side);
    put(usize::from(t.noise_level), 3, c2, side)
}

// The side information, into room of zeros.
pub fn put_side(r: Setting, v: Side, side: &mut [u8]) -> Cursor
    requires known { Known r }
    requires v_value { list_fits (side_fields r) (side_values v) ≡ true }
    requires side_value { side.old ≡ replicate 512 0 }
    ensures kept { Kept (list_bits (side_fields r) (side_values v)) side.new result }
    ensures fact { Open side.new result }
    ensures at_bound { result.at ≤ 74 }
{
    let f = v.flags;
    let h = v.head;
    let none = Cursor { at: 0, held: 0 };
    let c1 = put_head(r, h, none, side);
    let c2 = put_flags(
        tns_filters(r.duration),
        usize::from(h.bandwidth),
        f,
        c1,
        side,
    );
    let c3 = put_shape(v.shape, c2, side);
    put_tail(usize::from(f.pitch_present), v.tail, c3, side)
}
