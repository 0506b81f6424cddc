// What can be written (request 02 §5): the fields in their ranges, lines and residual bits that go with them. Each function equals its
// definition in specs/Fits.antt of `writer_laws`.
// Inner: `writer` stands over it. It asks for a known setting, and for at most 400 lines.
#![tactic(auto)]

ghost use Rattle.std.specs.Prelude.{◌≡◌, cond, ◌-◌, ◌^◌, ◌≤◌, ◌<◌, ltb, length};
ghost use Rattle.frame_bits.specs.Fields.{list_fits};
ghost use Rattle.frame_settings.specs.Settings.{Known};
ghost use Rattle.frame_shape.specs.Shape.{shape_fields};
ghost use Rattle.frame_side.specs.Side.{head_fields, flags_fields, tail_fields};
ghost use Rattle.writer_laws.specs.SideBits.{head_values, flags_values, shape_values, tail_values};
ghost use Rattle.writer_laws.specs.Fits.{entries_fit, magnitudes_from, magnitudes_fit, non_zero_from, non_zero};
ghost use Rattle.writer_laws.specs.Fits.{filter_fits, side_fits, fields_fit, lines_fit};

use frame_answers::Fields;
use frame_settings::{Setting, highest_order, tns_filters};
use frame_shape::joint_end;
use frame_side::{Flags, Head, Shape, Side, Tail, last_pair, second_flag};

// Whether a value has at most w bits.
fn within(v: usize, w: usize) -> bool
    requires { w ≤ 25 }
    ensures { result ≡ ltb v (2 ^ w) }
{
    v < (1 << w)
}

#[tactic(auto, unfolding(frame_bits::specs::Fields::list_fits))]
fn head_fits(r: Setting, h: Head) -> bool
    requires { Known r }
    ensures { result ≡ list_fits (head_fields r) (head_values h) }
{
    let bandwidth = usize::from(h.bandwidth);
    let pair = last_pair(usize::from(h.last_line));
    within(bandwidth, r.bandwidth)
        && bandwidth < r.index + 1
        && within(pair, r.pair)
        && pair < r.lines / 2
        && within(usize::from(h.lsb_mode), 1)
        && within(usize::from(h.gain), 8)
}

#[tactic(auto, unfolding(frame_bits::specs::Fields::list_fits))]
fn flags_fit(filters: usize, bandwidth: usize, f: Flags) -> bool
    requires le_filters { 1 ≤ filters }
    requires filters_bound { filters ≤ 2 }
    ensures { result ≡ list_fits (flags_fields filters bandwidth) (flags_values f) }
{
    within(usize::from(f.tns_0), 1)
        && within(usize::from(f.tns_1), second_flag(filters, bandwidth))
        && within(usize::from(f.pitch_present), 1)
}

// A mode above 1 has no widths for what follows it.
#[tactic(auto, unfolding(frame_bits::specs::Fields::list_fits))]
fn shape_fits(q: Shape) -> bool
    ensures { result ≡ list_fits shape_fields (shape_values q) }
{
    let m = usize::from(q.mode);
    let joint = q.joint as usize;
    within(usize::from(q.low), 5)
        && within(usize::from(q.high), 5)
        && m < 2
        && within(usize::from(q.gain), 1 + m)
        && within(usize::from(q.sign), 1)
        && within(joint, 25 - m)
        && joint < joint_end(m)
}

#[tactic(auto, unfolding(frame_bits::specs::Fields::list_fits))]
fn tail_fits(pitch: usize, t: Tail) -> bool
    requires { pitch < 2 }
    ensures { result ≡ list_fits (tail_fields pitch) (tail_values t) }
{
    within(usize::from(t.filter_flag), pitch)
        && within(usize::from(t.pitch_index), 9 * pitch)
        && within(usize::from(t.noise_level), 3)
}

// The side information: each field in its width and rule, a last line that is even and not 0, and LSB mode 0. The flags come before the
// tail, since a pitch flag above 1 has no widths for it.
#[tactic(auto, using(crate::proofs::FieldsFit::pitch_below))]
fn side_fits(r: Setting, v: Side) -> bool
    requires { Known r }
    ensures { result ≡ side_fits r v }
{
    let h = v.head;
    let f = v.flags;
    let last = usize::from(h.last_line);
    head_fits(r, h)
        && flags_fit(tns_filters(r.duration), usize::from(h.bandwidth), f)
        && shape_fits(v.shape)
        && tail_fits(usize::from(f.pitch_present), v.tail)
        && last == 2 * (last_pair(last) + 1)
        && h.lsb_mode == 0
}

// The entries before place n are at most `most`, the others 0.
fn entries_fit(l: &[u8], most: u8, n: usize) -> bool
    ensures { result ≡ entries_fit most n l.now }
{
    // a loop: see `look_from`
    let mut fit = true;
    for (k, x) in l.iter().enumerate() {
        let limit = if k < n { most } else { 0 };
        fit = fit & (*x <= limit);
    }
    fit
}

fn filter_fits(duration: usize, flag: u8, order: u8, l: &[u8]) -> bool
    ensures { result ≡ filter_fits duration flag order l.now }
{
    let n = usize::from(order);
    let sent = if flag == 0 {
        n == 0
    } else {
        1 <= n && n <= highest_order(duration)
    };
    sent && entries_fit(l, 16, n)
}

// Whether the fields can be written, before any line is looked at.
#[tactic(auto, unfolding(writer_laws::specs::Fits::fields_fit))]
pub fn fields_fit(r: Setting, f: Fields, first: &[u8], second: &[u8]) -> bool
    requires known { Known r }
    ensures { result ≡ fields_fit r f first.now second.now }
{
    let q = r.duration;
    let flags = f.side.flags;
    side_fits(r, f.side)
        && filter_fits(q, flags.tns_0, f.tns_order_0, first)
        && filter_fits(q, flags.tns_1, f.tns_order_1, second)
}

// Whether the lines are in their range, and how many are not 0.
#[derive(Clone, Copy)]
pub struct Lines {
    pub fit: bool,
    pub count: usize,
}

// Of the lines from one place to another: each at most 32,767, or 0 behind the last line. One loop: two chains (`all`, `filter`) take
// three times as long.
fn look_from(lines: &[i32], behind: bool, from: usize, to: usize) -> Lines
    requires lines_len_bound { length lines.now ≤ 400 }
    requires from_le_to { from ≤ to }
    requires to_in_bounds { to ≤ length lines.now }
    ensures fit_value { result.fit ≡ magnitudes_from (cond behind 0 32767) to lines.now (to - from) from }
    ensures count_value { result.count ≡ non_zero_from lines.now (to - from) from }
    ensures count_bound { result.count ≤ 400 }
{
    let limit: i32 = if behind { 0 } else { 32767 };
    let mut fit = true;
    let mut count = 0;
    for k in from..to {
        let x = lines[k];
        fit = fit & ((0 - limit <= x) & (x <= limit));
        if x != 0 {
            count = count + 1;
        }
    }
    Lines { fit, count }
}

fn look_at(lines: &[i32], last: usize) -> Lines
    requires { length lines.now ≤ 400 }
    ensures fit_value { result.fit ≡ magnitudes_fit 32767 last lines.now }
    ensures count_value { result.count ≡ non_zero lines.now }
{
    let n = lines.len();
    let m = if last < n { last } else { n };
    let a = look_from(lines, false, 0, m);
    let b = look_from(lines, true, m, n);
    Lines {
        fit: a.fit & b.fit,
        count: a.count + b.count,
    }
}

// Whether lines and residual bits can be written with these fields.
#[tactic(auto, unfolding(writer_laws::specs::Fits::lines_fit))]
pub fn lines_fit(f: Fields, lines: &[i32], bits: &[u8]) -> bool
    requires lines_len_bound { length lines.now ≤ 400 }
    ensures { result ≡ lines_fit f lines.now bits.now }
{
    let l = look_at(lines, usize::from(f.side.head.last_line));
    let n = usize::from(f.residual_bits);
    l.fit && n == l.count && entries_fit(bits, 1, n)
}
