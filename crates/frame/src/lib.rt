// One LC3plus frame of 2.5, 5, 7.5 or 10 ms read into its fields (clause 5.4.2 of ETSI TS 103 634), over the tables of `coder_tables`.
// Promised for every input: the answer and both lent buffers are those of the clause's own walk in specs/Frame.antt, or document 01's 1, 2
// or 5 with the first cause in reading order; a refusal leaves both buffers as lent. Values lie in -32,767 to 32,767, symbols are at most
// 18 + 7 x last line.
#![tactic(auto)]

ghost use Rattle.std.specs.Prelude.{length};
ghost use Rattle.frame_settings.specs.Settings.{Known, Sized, order_of, last_cause, last_cause_of, setting_of};
ghost use Rattle.frame.specs.Frame.{judged_of, judged_sized};
ghost use Rattle.frame_answers.specs.Answers.{told};
ghost use Rattle.frame_arithmetic.specs.Answers.{Answers};
ghost use Rattle.frame_arithmetic.specs.Sound.{Bounded};

pub use frame_answers::{Fields, Reading};
use frame_arithmetic::read_arithmetic;
use frame_settings::Setting;
pub use frame_settings::line_count;
pub use frame_side::{Flags, Head, Shape, Side, Tail};
pub use refusals::{Cause, Refusal};

// One frame, by clause 5.4.2; the duration is in quarter milliseconds.
pub fn read(
    khz: u32,
    duration: u32,
    frame: &[u8],
    spectrum: &mut [i32],
    residual: &mut [u8],
) -> Result<Reading, Refusal>
    ensures answers { Answers (told result) (judged_of khz duration frame.now (length spectrum.old) (length residual.old))
        spectrum.old spectrum.new residual.old residual.new }
    ensures bounded { Bounded (last_cause_of (setting_of khz duration)) (told result) spectrum.new }
{
    let r = frame_settings::setting_of(khz, duration).ok_or(Refusal::Setting)?;
    match frame.len() {
        20..=400 => read_sized(r, frame, spectrum, residual),
        _ => Err(Refusal::Setting),
    }
}

// The two lent buffers, then the side information.
fn read_sized(
    r: Setting,
    frame: &[u8],
    spectrum: &mut [i32],
    residual: &mut [u8],
) -> Result<Reading, Refusal>
    requires known { Known r }
    requires sized { Sized frame.now }
    ensures answers { Answers (told result) (judged_sized r frame.now (length spectrum.old) (length residual.old))
        spectrum.old spectrum.new residual.old residual.new }
    ensures bounded { Bounded (last_cause (order_of r.duration)) (told result) spectrum.new }
{
    if spectrum.len() != r.lines || residual.len() != r.lines {
        return Err(Refusal::Length);
    }
    let side = frame_side::read_side(frame, r)?;
    read_arithmetic(r, side.value, side.next, frame, spectrum, residual)
}
