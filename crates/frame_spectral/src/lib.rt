// The spectral data of a frame and what follows them (5.4.2.7, 5.4.2.8): the pairs, the bits left, and after the last check both lent
// buffers. The function equals its definition in specs/Spectral.antt.
// Inner: `frame_arithmetic` stands over it. It asks for a known setting, a frame of 20 to 400 bytes, buffers of its line count, and cursors
// of the steps before.
#![tactic(auto)]

ghost use Rattle.std.specs.Prelude.{◌≡◌, ◌≤◌};
ghost use Rattle.frame_settings.specs.Settings.{Known};
ghost use Rattle.frame_spectral.specs.Spectral.{spectral_from, spectral_given, KeptOnCause};
ghost use Rattle.frame_coder.specs.Sound.{Ready};
ghost use Rattle.frame_side.specs.Sound.{HeadFor};
ghost use Rattle.frame_spectral.specs.Sound.{Buffers, GoodSpectral};

use frame_pair::Streams;
use frame_pairs::PairSetting;
use frame_settings::Setting;
use frame_side::Head;
use refusals::Cause;

// The number of symbols taken, that of the residual bits, and the next side bit. Lines and residual bits stand in the lent buffers.
#[derive(Clone, Copy)]
pub struct SpectralRead {
    pub symbols: u16,
    pub residual_bits: u16,
    pub next: usize,
}

// The pairs, the bits left, and after the last check what goes to the lent buffers. Apart from its caller, so that the loop over the pairs
// has the registers for itself.
#[inline(never)]
pub fn read_spectral(
    r: Setting,
    h: Head,
    from: Streams,
    frame: &[u8],
    spectrum: &mut [i32],
    residual: &mut [u8],
) -> Result<SpectralRead, Cause>
    requires known { Known r }
    requires head_for { HeadFor r h }
    requires ready { Ready frame.now from.coder 19 }
    requires p_bound { from.side ≤ 74 }
    requires buffers { Buffers r spectrum.old residual.old }
    ensures residual_after { spectral_given result spectrum.new residual.new
        ≡ spectral_from frame.now r h from.coder from.side }
    ensures kept_on_cause { KeptOnCause result spectrum.old spectrum.new residual.old residual.new }
    ensures good_spectral { GoodSpectral h.last_line result spectrum.new }
{
    let mut x = [0i32; 400];
    let mut levels = [0u8; 200];
    let lsb = usize::from(h.lsb_mode);
    let last = usize::from(h.last_line);
    let o = PairSetting {
        lsb,
        offset: frame_settings::rate_offset(r.index, frame.len()),
        half: r.lines / 2,
    };
    let at = frame_pairs::read_pairs(frame, o, last / 2, from, &mut x, &mut levels)?;
    let left = frame_residual::bits_left(frame.len(), at.side, at.coder)?;
    let count = frame_finish::finish(
        frame, lsb, last, &mut x, &levels, at.side, left, spectrum, residual,
    );
    Ok(SpectralRead {
        symbols: at.coder.taken as u16,
        residual_bits: count as u16,
        next: at.side,
    })
}
