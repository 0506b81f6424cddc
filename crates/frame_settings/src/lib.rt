// What the rate, the duration and the frame's length give (document 01, "Reading a frame"; request 02 §3): each function equals its
// definition in specs/Settings.antt. A duration is in quarter milliseconds.
// Inner: the crates of `frame` and `writer` and `day_sample` stand over it. `rate_offset` and `tns_weighting` ask for a setting's numbers
// and a length in range; the other public ones ask nothing, `line_count` among them, which `frame` hands on to callers.
#![tactic(auto)]

ghost use Rattle.std.specs.Prelude.{◌≡◌, ◌≤◌, ◌<◌};
ghost use Rattle.frame_settings.specs.Settings.{durations, lines_of, listed, pair_bits, rates, rate_in, setting, setting_of};
ghost use Rattle.frame_settings.specs.Settings.{KnownSetting, filters_of, order_of, line_count, rate_offset, weighting};

// The rate's index, the line count NE, the bits of the fields bandwidth and last pair, and the duration.
#[derive(Clone, Copy)]
pub struct Setting {
    pub index: usize,
    pub lines: usize,
    pub bandwidth: usize,
    pub pair: usize,
    pub duration: usize,
}

// A rate: kHz, its index, and the bits of the bandwidth.
#[derive(Clone, Copy)]
pub struct Rate {
    pub khz: usize,
    pub index: usize,
    pub bandwidth: usize,
}

// The rate of the table that has so many kHz.
fn rate_of(khz: u32) -> Option<Rate>
    ensures { result ≡ rate_in rates khz }
{
    let (index, bandwidth) = match khz {
        8 => (0, 0),
        16 => (1, 1),
        24 => (2, 2),
        32 => (3, 2),
        48 => (4, 3),
        _ => return None,
    };
    Some(Rate {
        khz: khz as usize,
        index,
        bandwidth,
    })
}

// Whether it is one of the four durations.
fn is_duration(duration: u32) -> bool
    ensures { result ≡ listed durations duration }
{
    matches!(duration, 10 | 20 | 30 | 40)
}

// The bits of the last pair, by half of the lines.
fn pair_bits(half: usize) -> usize
    requires le_half { 7 ≤ half }
    requires half_bound { half ≤ 254 }
    ensures { result ≡ pair_bits half }
{
    match half {
        0..=14 => 4,
        15..=30 => 5,
        31..=62 => 6,
        63..=126 => 7,
        _ => 8,
    }
}

// NE: at most 40 lines a millisecond.
fn lines_of(khz: usize, duration: usize) -> usize
    requires le_khz { (8 ≤ khz) × (khz ≤ 48) }
    requires le_duration { (10 ≤ duration) × (duration ≤ 40) }
    ensures value { result ≡ lines_of khz duration }
    ensures lower_bound { (14 ≤ result) × (result ≤ 508) }
{
    khz.min(40) * duration / 4
}

// The setting of a rate and a duration, both of the tables.
fn known(rate: Rate, duration: usize) -> Setting
    requires le_khz { (8 ≤ rate.khz) × (rate.khz ≤ 48) }
    requires le_duration { (10 ≤ duration) × (duration ≤ 40) }
    ensures { result ≡ setting rate duration }
{
    let lines = lines_of(rate.khz, duration);
    Setting {
        index: rate.index,
        lines,
        bandwidth: rate.bandwidth,
        pair: pair_bits(lines / 2),
        duration,
    }
}

// The setting of a rate and a duration.
pub fn setting_of(khz: u32, duration: u32) -> Option<Setting>
    ensures value { result ≡ setting_of khz duration }
    ensures known_setting { KnownSetting result }
{
    let rate = rate_of(khz)?;
    if is_duration(duration) {
        Some(known(rate, duration as usize))
    } else {
        None
    }
}

// The TNS filters at bandwidth 3 and 4.
pub fn tns_filters(duration: usize) -> usize
    ensures value { result ≡ filters_of duration }
    ensures lower_bound { (1 ≤ result) × (result ≤ 2) }
{
    if duration == 10 { 1 } else { 2 }
}

// The highest TNS order.
pub fn highest_order(duration: usize) -> usize
    ensures { result ≡ order_of duration }
{
    if duration <= 20 { 4 } else { 8 }
}

// The row of the TNS orders, by the duration and the frame's bits.
pub fn tns_weighting(duration: usize, bytes: usize) -> usize
    requires duration_bound { duration ≤ 40 }
    requires bytes_bound { bytes ≤ 400 }
    ensures value { result ≡ weighting duration bytes }
    ensures upper_bound { result < 2 }
{
    if 8 * bytes < 12 * duration { 1 } else { 0 }
}

// The offset of the contexts, by the rate and the frame's bits.
pub fn rate_offset(index: usize, bytes: usize) -> usize
    requires index_bound { index ≤ 4 }
    requires bytes_bound { bytes ≤ 400 }
    ensures value { result ≡ rate_offset index bytes }
    ensures upper_bound { result ≤ 512 }
{
    if 160 + 160 * index < 8 * bytes {
        512
    } else {
        0
    }
}

// NE, the number of lines at a rate and a duration; 0 where one of them is out of range.
pub fn line_count(khz: u32, duration: u32) -> usize
    ensures { result ≡ line_count khz duration }
{
    match setting_of(khz, duration) {
        Some(r) => r.lines,
        None => 0,
    }
}
