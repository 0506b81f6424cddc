// The arithmetic stream of a frame (5.4.2.7): the TNS data of both filters, then the spectral data. The function answers what its
// definition in specs/Answers.antt asks for.
// Inner: `frame` stands over it. It asks for a known setting, a frame of 20 to 400 bytes, its side information as read, and buffers of its
// line count.
#![tactic(auto)]

ghost use Rattle.frame_settings.specs.Settings.{Known, Sized, order_of, last_cause};
ghost use Rattle.frame_answers.specs.Answers.{told};
ghost use Rattle.frame_arithmetic.specs.Answers.{judged_read, arithmetic_from, Answers};
ghost use Rattle.frame_side.specs.Sound.{Sided};
ghost use Rattle.frame_spectral.specs.Sound.{Buffers};
ghost use Rattle.frame_arithmetic.specs.Sound.{Bounded};

use frame_answers::{Fields, Reading};
use frame_pair::Streams;
use frame_settings::Setting;
use frame_side::Side;
use frame_spectral::read_spectral;
use frame_tns::filter;
use refusals::Refusal;

// The arithmetic stream: the TNS data of both filters, then the pairs.
pub fn read_arithmetic(
    r: Setting,
    v: Side,
    p: usize,
    frame: &[u8],
    spectrum: &mut [i32],
    residual: &mut [u8],
) -> Result<Reading, Refusal>
    requires known { Known r }
    requires sized { Sized frame.now }
    requires sided { Sided r v p }
    requires buffers { Buffers r spectrum.old residual.old }
    ensures answers { Answers (told result) (judged_read (arithmetic_from frame.now r v p))
        spectrum.old spectrum.new residual.old residual.new }
    ensures bounded { Bounded (last_cause (order_of r.duration)) (told result) spectrum.new }
{
    let q = r.duration;
    let flags = v.flags;
    let mut first = [0u8; 8];
    let mut second = [0u8; 8];
    let start = frame_coder::start(frame);
    let order_0 = filter(frame, q, flags.tns_0, &mut first, start)?;
    let order_1 = filter(frame, q, flags.tns_1, &mut second, order_0.next)?;
    let from = Streams {
        coder: order_1.next,
        side: p,
    };
    let x = read_spectral(r, v.head, from, frame, spectrum, residual)?;
    Ok(Reading {
        fields: Fields {
            side: v,
            tns_order_0: order_0.value,
            tns_order_1: order_1.value,
            residual_bits: x.residual_bits,
            symbols: x.symbols,
        },
        tns_coefficients_0: first,
        tns_coefficients_1: second,
    })
}
