// One LC3plus frame of 2.5, 5, 7.5 or 10 ms written from its fields, its lines and its residual bits (clause 5.3.14 of ETSI TS 103 634;
// request 02 §5). Promised for every input: the answer and the lent frame are those of specs/Writer.antt, or a refusal 1, 2 or 8 in
// document 02's order, which leaves the frame as lent; and what was written reads back as given, but for the residual bits that were not
// sent (specs/Trip.antt).
#![tactic(auto)]

ghost use Rattle.std.specs.Prelude.{◌≡◌, ◌≤◌, length};
ghost use Rattle.frame_settings.specs.Settings.{Known};
ghost use Rattle.frame_answers.specs.Answers.{told};
ghost use Rattle.frame_arithmetic.specs.Answers.{Answers};
ghost use Rattle.frame.specs.Frame.{judged_of};
ghost use Rattle.writer_laws.specs.Writing.{given};
ghost use Rattle.writer.specs.Writer.{written_fields, told_of, frame_after, answered, written_of};
ghost use Rattle.writer.specs.Trip.{Writes, Returned};

use frame::{Fields, Reading};
use frame_settings::{Setting, setting_of};
pub use refusals::Refusal;
use writer_fits::{fields_fit, lines_fit};
use writer_frame::write_fitting;

// The fields, the two lent buffers, then the lines and residual bits.
fn write_sized(
    r: Setting,
    f: Fields,
    first: &[u8],
    second: &[u8],
    spectrum: &[i32],
    residual: &[u8],
    frame: &mut [u8],
) -> Result<u16, Refusal>
    requires known { Known r }
    requires in_bounds { 20 ≤ length frame.old }
    requires frame_len_bound { length frame.old ≤ 400 }
    requires first_len { length first.now ≡ 8 }
    requires second_len { length second.now ≡ 8 }
    ensures result_value { answered result
        ≡ told_of (written_fields r (length frame.old)
        (given f first.now second.now spectrum.now residual.now)) }
    ensures frame_after { frame.new
        ≡ frame_after (written_fields r (length frame.old)
        (given f first.now second.now spectrum.now residual.now)) frame.old }
{
    if !fields_fit(r, f, first, second) {
        return Err(Refusal::Setting);
    }
    let lines = r.lines;
    if spectrum.len() != lines {
        return Err(Refusal::Length);
    }
    if residual.len() != lines {
        return Err(Refusal::Length);
    }
    if !lines_fit(f, spectrum, residual) {
        return Err(Refusal::Setting);
    }
    let written = write_fitting(r, f, first, second, spectrum, residual, frame);
    let sent = written.ok_or(Refusal::TooSmall)?;
    Ok(sent as u16)
}

// One frame of so many bytes as are lent, by clause 5.3.14; the duration is in quarter milliseconds. The number of residual bits sent, the
// first ones.
pub fn write(
    khz: u32,
    duration: u32,
    fields: Fields,
    tns_coefficients_0: [u8; 8],
    tns_coefficients_1: [u8; 8],
    spectrum: &[i32],
    residual: &[u8],
    frame: &mut [u8],
) -> Result<u16, Refusal>
    ensures { Writes khz duration
        (given fields tns_coefficients_0 tns_coefficients_1 spectrum.now residual.now)
        frame.old frame.new (answered result) }
{
    let r = setting_of(khz, duration).ok_or(Refusal::Setting)?;
    let n = frame.len();
    if n < 20 || 400 < n {
        return Err(Refusal::Setting);
    }
    write_sized(
        r,
        fields,
        &tns_coefficients_0,
        &tns_coefficients_1,
        spectrum,
        residual,
        frame,
    )
}

// The round trip of the running code: a frame is written, and what then stands in the lent frame is read.
pub fn write_and_read(
    khz: u32,
    duration: u32,
    fields: Fields,
    tns_coefficients_0: [u8; 8],
    tns_coefficients_1: [u8; 8],
    spectrum: &[i32],
    residual: &[u8],
    frame: &mut [u8],
    lines: &mut [i32],
    bits: &mut [u8],
) -> Result<Reading, Refusal>
    ensures frame_after { frame.new
        ≡ frame_after (written_of khz duration (length frame.old)
        (given fields tns_coefficients_0 tns_coefficients_1 spectrum.now residual.now)) frame.old }
    ensures answers { Answers (told result) (judged_of khz duration frame.new (length lines.old) (length bits.old))
        lines.old lines.new bits.old bits.new }
    ensures returned { Returned khz duration
        (given fields tns_coefficients_0 tns_coefficients_1 spectrum.now residual.now)
        frame.old (told result) lines.old lines.new bits.old bits.new
        (written_of khz duration (length frame.old)
        (given fields tns_coefficients_0 tns_coefficients_1 spectrum.now residual.now)) }
{
    let _ = write(
        khz,
        duration,
        fields,
        tns_coefficients_0,
        tns_coefficients_1,
        spectrum,
        residual,
        frame,
    );
    frame::read(khz, duration, frame, lines, bits)
}
