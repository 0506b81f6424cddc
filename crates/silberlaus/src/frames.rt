// A frame read into its fields under C names, lent as it is or as an entry of a record, a frame written from its fields, and the number
// of lines. A duration is in quarter milliseconds. It stands over `silberlaus_sizes`, `silberlaus_frames`, `silberlaus_writing` and
// `silberlaus_entries`.
ghost use Rattle.std.specs.Prelude.{◌≡◌, length};
ghost use Rattle.frame_settings.specs.Settings.{line_count, last_cause_of, setting_of};
ghost use Rattle.frame.specs.Frame.{judged_of};
ghost use Rattle.frame_arithmetic.specs.Answers.{Answers};
ghost use Rattle.frame_arithmetic.specs.Sound.{Bounded};
ghost use Rattle.silberlaus_entries.specs.Entries.{judged_entry};
ghost use Rattle.silberlaus_frames.specs.Frames.{frame_given};
ghost use Rattle.writer.specs.Trip.{Writes};
ghost use Rattle.silberlaus_writing.specs.Writing.{given_by, written_given};

use silberlaus_frames::SilberlausFrame;
use silberlaus_writing::SilberlausWritten;

// The lines of a rate and a duration, 0 where one of them is none.
#[unsafe(no_mangle)]
pub extern "C" fn silberlaus_line_count(khz: u32, duration: u32) -> usize
    ensures { result ≡ line_count khz duration }
{
    silberlaus_sizes::line_count(khz, duration)
}

// A frame read, or refused with 1, 2 or 5.
#[unsafe(no_mangle)]
pub extern "C" fn silberlaus_read_frame(
    khz: u32,
    duration: u32,
    bytes: &[u8],
    spectrum: &mut [i32],
    residual: &mut [u8],
) -> SilberlausFrame
    ensures answers { Answers (frame_given result)
        (judged_of khz duration bytes.now (length spectrum.old) (length residual.old))
        spectrum.old spectrum.new residual.old residual.new }
    ensures bounded { Bounded (last_cause_of (setting_of khz duration)) (frame_given result) spectrum.new }
{
    silberlaus_frames::read_frame(khz, duration, bytes, spectrum, residual)
}

// A frame written, or refused with 1, 2 or 8.
#[unsafe(no_mangle)]
pub extern "C" fn silberlaus_write_frame(
    khz: u32,
    duration: u32,
    fields: SilberlausFrame,
    spectrum: &[i32],
    residual: &[u8],
    bytes: &mut [u8],
) -> SilberlausWritten
    ensures { Writes khz duration (given_by fields spectrum.now residual.now)
        bytes.old bytes.new (written_given result) }
{
    silberlaus_writing::write_frame(khz, duration, fields, spectrum, residual, bytes)
}

// The frame of a record's entry read, or refused with 1, 2, 7 or 5.
#[unsafe(no_mangle)]
pub extern "C" fn silberlaus_read_entry(
    form: u32,
    bytes: &[u8],
    place: usize,
    khz: u32,
    duration: u32,
    spectrum: &mut [i32],
    residual: &mut [u8],
) -> SilberlausFrame
    ensures answers { Answers (frame_given result)
        (judged_entry form khz duration bytes.now place (length spectrum.old) (length residual.old))
        spectrum.old spectrum.new residual.old residual.new }
    ensures bounded { Bounded (last_cause_of (setting_of khz duration)) (frame_given result) spectrum.new }
{
    silberlaus_entries::read_entry(form, bytes, place, khz, duration, spectrum, residual)
}
