// A frame read into the fields of C's struct, with document 01's numbers. It stands over `frame`.
// Inner: `silberlaus_entries` and `silberlaus` stand over it. It asks nothing.
#![tactic(auto)]

ghost use Rattle.std.specs.Prelude.{◌≡◌, length};
ghost use Rattle.frame_settings.specs.Settings.{last_cause_of, setting_of};
ghost use Rattle.frame.specs.Frame.{judged_of};
ghost use Rattle.frame_answers.specs.Answers.{refused_with, told};
ghost use Rattle.frame_arithmetic.specs.Answers.{Answers};
ghost use Rattle.frame_arithmetic.specs.Sound.{Bounded};
ghost use Rattle.silberlaus_frames.specs.Frames.{given, frame_given};

use frame::{Reading, Refusal};

// C's silberlaus_frame.
#[repr(C)]
#[derive(Clone, Copy)]
pub struct SilberlausFrame {
    pub number: u8,
    pub cause: u8,
    pub bandwidth: u8,
    pub lsb_mode: u8,
    pub gain: u8,
    pub tns_flag_0: u8,
    pub tns_flag_1: u8,
    pub pitch_present: u8,
    pub shape_low: u8,
    pub shape_high: u8,
    pub shape_mode: u8,
    pub shape_gain: u8,
    pub shape_sign: u8,
    pub filter_flag: u8,
    pub noise_level: u8,
    pub tns_order_0: u8,
    pub tns_order_1: u8,
    pub tns_coefficients_0: [u8; 8],
    pub tns_coefficients_1: [u8; 8],
    pub last_line: u16,
    pub pitch_index: u16,
    pub residual_bits: u16,
    pub symbols: u16,
    pub shape_joint: u32,
}

// The C struct of a number, a cause and what was read.
fn flattened(number: u8, cause: u8, r: Reading) -> SilberlausFrame
    ensures { frame_given result ≡ given number cause r.fields r.tns_coefficients_0 r.tns_coefficients_1 }
{
    let f = r.fields;
    let h = f.side.head;
    let g = f.side.flags;
    let q = f.side.shape;
    let t = f.side.tail;
    let tns_coefficients_0 = r.tns_coefficients_0;
    let tns_coefficients_1 = r.tns_coefficients_1;
    SilberlausFrame {
        number,
        cause,
        bandwidth: h.bandwidth,
        lsb_mode: h.lsb_mode,
        gain: h.gain,
        tns_flag_0: g.tns_0,
        tns_flag_1: g.tns_1,
        pitch_present: g.pitch_present,
        shape_low: q.low,
        shape_high: q.high,
        shape_mode: q.mode,
        shape_gain: q.gain,
        shape_sign: q.sign,
        filter_flag: t.filter_flag,
        noise_level: t.noise_level,
        tns_order_0: f.tns_order_0,
        tns_order_1: f.tns_order_1,
        tns_coefficients_0,
        tns_coefficients_1,
        last_line: h.last_line,
        pitch_index: t.pitch_index,
        residual_bits: f.residual_bits,
        symbols: f.symbols,
        shape_joint: q.joint,
    }
}

// A refusal that no frame was read for: zero in every other field.
pub fn unread(number: u8) -> SilberlausFrame
    ensures { frame_given result ≡ refused_with number 0 }
{
    flattened(number, 0, Reading::default())
}

// The answer of the frame reader, by document 01's numbers.
pub fn numbered(answer: Result<Reading, Refusal>) -> SilberlausFrame
    ensures { frame_given result ≡ told answer }
{
    match answer {
        Ok(r) => flattened(0, 0, r),
        Err(why) => flattened(why.number(), why.cause(), Reading::default()),
    }
}

// A frame read, or refused with 1, 2 or 5.
pub fn read_frame(
    khz: u32,
    duration: u32,
    bytes: &[u8],
    spectrum: &mut [i32],
    residual: &mut [u8],
) -> SilberlausFrame
    ensures answers { Answers (frame_given result)
        (judged_of khz duration bytes.now (length spectrum.old) (length residual.old))
        spectrum.old spectrum.new residual.old residual.new }
    ensures bounded { Bounded (last_cause_of (setting_of khz duration)) (frame_given result) spectrum.new }
{
    numbered(frame::read(khz, duration, bytes, spectrum, residual))
}
