// The headset's end: a frame of the sample read into its fields and written anew from them. It stands over `frame` and `writer`.
// Inner: `day_way` stands over it. It asks nothing.
#![tactic(auto)]

ghost use Rattle.std.specs.Prelude.{◌≤◌};

use refusals::Refusal;

// The lines of a frame at a rate and a duration.
pub fn lines_at(khz: u32, duration: u32) -> usize
    ensures { result ≤ 400 }
{
    frame::line_count(khz, duration)
}

// Puts the frame that is sent into a room of its length, and answers whether it was written anew. What cannot be read, or written from what
// was read (LSB mode 1, or fewer residual bits than lines that are not 0), is sent as it is.
pub fn write_anew(khz: u32, duration: u32, frame: &[u8], room: &mut [u8]) -> bool {
    let n = lines_at(khz, duration);
    let mut spectrum = [0i32; 400];
    let mut residual = [0u8; 400];
    let shared = frame.len().min(room.len());
    room[..shared].copy_from_slice(&frame[..shared]);
    write_by(
        khz,
        duration,
        frame,
        &mut spectrum[..n],
        &mut residual[..n],
        room,
    )
    .is_ok()
}

// Writes a frame anew by way of lent lines and residual bits; where it is refused, the room is as lent.
fn write_by(
    khz: u32,
    duration: u32,
    frame: &[u8],
    spectrum: &mut [i32],
    residual: &mut [u8],
    room: &mut [u8],
) -> Result<u16, Refusal> {
    let reading = frame::read(khz, duration, frame, spectrum, residual)?;
    writer::write(
        khz,
        duration,
        reading.fields,
        reading.tns_coefficients_0,
        reading.tns_coefficients_1,
        spectrum,
        residual,
        room,
    )
}
