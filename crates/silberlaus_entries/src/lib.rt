// The frame of an entry of a record of either form, read in place. It stands over `silberlaus_frames` and `record`.
// Inner: `silberlaus` stands over it. It asks nothing.
#![tactic(auto)]

ghost use Rattle.std.specs.Prelude.{◌≡◌, length};
ghost use Rattle.frame_settings.specs.Settings.{last_cause_of, setting_of};
ghost use Rattle.frame_arithmetic.specs.Answers.{Answers};
ghost use Rattle.frame_arithmetic.specs.Sound.{Bounded};
ghost use Rattle.silberlaus_frames.specs.Frames.{frame_given};
ghost use Rattle.silberlaus_entries.specs.Entries.{judged_entry, missing};

use record_forms::Form;
use silberlaus_frames::{SilberlausFrame, numbered, unread};

// Why there is no frame at a place: 7 or 1.
fn why_missing(form: u32, bytes: &[u8], place: usize) -> u8
    ensures { result ≡ missing form bytes.now place }
{
    refusals::numbered(record::entry(form, bytes, place))
}

// The frame of the entry at a place, a part of the record that goes on to the frame reader uncopied.
pub fn read_entry(
    form: u32,
    bytes: &[u8],
    place: usize,
    khz: u32,
    duration: u32,
    spectrum: &mut [i32],
    residual: &mut [u8],
) -> SilberlausFrame
    ensures answers { Answers (frame_given result)
        (judged_entry form khz duration bytes.now place (length spectrum.old) (length residual.old))
        spectrum.old spectrum.new residual.old residual.new }
    ensures bounded { Bounded (last_cause_of (setting_of khz duration)) (frame_given result) spectrum.new }
{
    let Ok(_) = Form::try_from(form) else {
        return unread(1);
    };
    let lines = frame::line_count(khz, duration);
    if lines == 0 {
        return unread(1);
    }
    if spectrum.len() != lines {
        return unread(2);
    }
    if residual.len() != lines {
        return unread(2);
    }
    let part = record::frame(form, bytes, place);
    if part.len() == 0 {
        return unread(why_missing(form, bytes, place));
    }
    numbered(frame::read(khz, duration, part, spectrum, residual))
}
