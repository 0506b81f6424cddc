// Finalization (5.4.2.8), after the last check: the late low bits of all lines, and lines and residual bits handed to the lent buffers, as
// specs/Finish.antt defines them. Nothing that is read here leaves the frame.
// Inner: `frame_spectral` stands over it. It asks for a frame of 20 to 400 bytes, for the bits left inside it, for 400 lines and 200 levels
// that leave room for a late bit, and for two buffers of one length, at most 400.
#![tactic(auto)]

ghost use Rattle.std.specs.Prelude.{◌≡◌, ◌≤◌, ◌<◌, length, take};
ghost use Rattle.frame_residual.specs.Residual.{residual_given};
ghost use Rattle.frame_residual.specs.Sound.{LeftIn};
ghost use Rattle.frame_finish.specs.Finish.{lates_of, finished_of, sent_bits};
ghost use Rattle.frame_pairs.specs.Pairs.{spectrum_given};
ghost use Rattle.frame_pairs.specs.Sound.{Working, Small};

use copying::copy;

// The late low bits of LSB mode 1, into the first n lines.
fn read_lates(s: &[u8], levels: &[u8], n: usize, lines: &mut [i32], start: usize, room: usize)
    requires left_in { LeftIn s.now start room }
    requires working { Working 1 lines.old levels.now }
    requires n_bound { n ≤ 400 }
    ensures lines_after { lines.new ≡ lates_of s.now levels.now n 0 lines.old start room }
    ensures small { Small lines.new }
{
    let mut p = start;
    let mut left = room;
    for k in 0..n {
        if levels[k / 2] != 0 {
            let Some(late) = frame_residual::read_late(s, lines[k], p, left) else {
                return;
            };
            lines[k] = late.value;
            p = late.next;
            left = late.left;
        }
    }
}

// After the last check: residual or late low bits, and what is read goes to the lent buffers; the number of residual bits.
pub fn finish(
    s: &[u8],
    lsb: usize,
    last: usize,
    lines: &mut [i32],
    levels: &[u8],
    p: usize,
    left: usize,
    spectrum: &mut [i32],
    bits: &mut [u8],
) -> usize
    requires left_in { LeftIn s.now p left }
    requires working { Working lsb lines.old levels.now }
    requires bits_len { length bits.old ≡ length spectrum.old }
    requires spectrum_len_bound { length spectrum.old ≤ 400 }
    requires lsb_bound { lsb < 2 }
    requires last_bound { last ≤ 400 }
    ensures bits_after { residual_given result bits.new
        ≡ sent_bits s.now lsb (length spectrum.old)
        (spectrum_given lines.old levels.now) p left }
    ensures spectrum_after { spectrum.new
        ≡ take (length spectrum.old)
        (finished_of s.now lsb last (spectrum_given lines.old levels.now) p left) }
    ensures small { Small spectrum.new }
    ensures upper_bound { result ≤ 400 }
{
    let n = spectrum.len();
    bits.fill(0);
    if lsb == 0 {
        copy(spectrum, &lines[..n]);
        return frame_residual::read_residual(s, lines, p, left, n, bits);
    }
    read_lates(s, levels, last, lines, p, left);
    copy(spectrum, &lines[..n]);
    0
}
