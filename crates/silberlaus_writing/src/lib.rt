// A frame written from the fields of C's struct, with document 01's numbers. It stands over `writer`.
// Inner: `silberlaus` stands over it. It asks nothing.
#![tactic(auto)]

ghost use Rattle.std.specs.Prelude.{◌≡◌};
ghost use Rattle.writer.specs.Writer.{answered};
ghost use Rattle.writer.specs.Trip.{Writes};
ghost use Rattle.silberlaus_frames.specs.Frames.{frame_given};
ghost use Rattle.silberlaus_writing.specs.Writing.{given_by, written_given};

use frame::{Fields, Flags, Head, Shape, Side, Tail};
use refusals::{Refusal, numbered};
use silberlaus_frames::SilberlausFrame;

// C's silberlaus_written.
#[repr(C)]
#[derive(Clone, Copy)]
pub struct SilberlausWritten {
    pub number: u8,
    pub residual_bits: u16,
}

// The fields of the C struct, group by group.
fn grouped(f: SilberlausFrame) -> Fields
    ensures { result ≡ (frame_given f).fields }
{
    Fields {
        side: Side {
            head: Head {
                bandwidth: f.bandwidth,
                last_line: f.last_line,
                lsb_mode: f.lsb_mode,
                gain: f.gain,
            },
            flags: Flags {
                tns_0: f.tns_flag_0,
                tns_1: f.tns_flag_1,
                pitch_present: f.pitch_present,
            },
            shape: Shape {
                low: f.shape_low,
                high: f.shape_high,
                mode: f.shape_mode,
                gain: f.shape_gain,
                sign: f.shape_sign,
                joint: f.shape_joint,
            },
            tail: Tail {
                filter_flag: f.filter_flag,
                pitch_index: f.pitch_index,
                noise_level: f.noise_level,
            },
        },
        tns_order_0: f.tns_order_0,
        tns_order_1: f.tns_order_1,
        residual_bits: f.residual_bits,
        symbols: f.symbols,
    }
}

// The answer of the writer, by document 01's numbers.
fn written(answer: Result<u16, Refusal>) -> SilberlausWritten
    ensures { written_given result ≡ answered answer }
{
    SilberlausWritten {
        number: numbered(answer),
        residual_bits: answer.unwrap_or(0),
    }
}

// A frame written, or refused with 1, 2 or 8.
pub fn write_frame(
    khz: u32,
    duration: u32,
    fields: SilberlausFrame,
    spectrum: &[i32],
    residual: &[u8],
    bytes: &mut [u8],
) -> SilberlausWritten
    ensures { Writes khz duration (given_by fields spectrum.now residual.now)
        bytes.old bytes.new (written_given result) }
{
    let first = fields.tns_coefficients_0;
    let second = fields.tns_coefficients_1;
    written(writer::write(
        khz,
        duration,
        grouped(fields),
        first,
        second,
        spectrum,
        residual,
        bytes,
    ))
}
