// The sample, frame after frame: the rate in kHz in one byte, the duration in quarter milliseconds in one, the frame's length in two, the
// higher first, then the frame.
ghost use Rattle.std.specs.Prelude.{◌<◌, length};
ghost use Rattle.day_sample.specs.Sample.{Follows};

use frame_settings::setting_of;

// A frame of the sample: its rate and duration, and where it starts and ends.
#[derive(Clone, Copy)]
pub struct Piece {
    pub khz: u32,
    pub duration: u32,
    pub start: usize,
    pub end: usize,
}

// What is wrong with the sample.
#[derive(Clone, Copy)]
pub enum SampleError {
    CutShort,
    UnknownRate,
    UnknownDuration,
    BadLength,
}

// The frame at a place.
pub fn frame_at(bytes: &[u8], at: usize) -> Result<Piece, SampleError>
    ensures { Follows result at (length bytes.now) }
{
    if bytes.len() <= at || bytes.len() - at < 4 {
        return Err(SampleError::CutShort);
    }
    let khz = u32::from(bytes[at]);
    if setting_of(khz, 40).is_none() {
        return Err(SampleError::UnknownRate);
    }
    let duration = u32::from(bytes[at + 1]);
    if setting_of(khz, duration).is_none() {
        return Err(SampleError::UnknownDuration);
    }
    let n = usize::from(u16::from_be_bytes([bytes[at + 2], bytes[at + 3]]));
    if n < 20 || 400 < n {
        return Err(SampleError::BadLength);
    }
    let start = at + 4;
    if bytes.len() - start < n {
        return Err(SampleError::CutShort);
    }
    Ok(Piece {
        khz,
        duration,
        start,
        end: start + n,
    })
}

// Goes through the whole sample before anything is sent, and answers how many frames it has.
pub fn survey(bytes: &[u8]) -> Result<usize, SampleError> {
    let mut at: usize = 0;
    let mut count: usize = 0;
    // No `for`: each frame says where the next begins.
    while at < bytes.len() {
        let piece = frame_at(bytes, at)?;
        at = piece.end;
        count = count + 1;
    }
    Ok(count)
}
