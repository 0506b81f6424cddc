// What a mode sets and what a word may be: the distance, the modes and lengths that are taken, and elements that are semi-octets.
// Inner: `code_word` and the crates of `slot` stand over it. `distance` asks for mode 2, 3 or 4.
#![tactic(auto)]

ghost use Rattle.std.specs.Prelude.{◌+◌, ◌≤◌, ◌<◌, length, drop};
ghost use Rattle.laws.specs.Decides.{Decides};
ghost use Rattle.code_word_laws.specs.Word.{SemiOctets, Fits, IsDistance};

// The distance of the code in a mode (A.10); one less is the number of check semi-octets.
pub fn distance(mode: usize) -> usize
    requires le_mode { 2 ≤ mode }
    requires mode_bound { mode ≤ 4 }
    ensures { IsDistance mode result }
{
    match mode {
        2 => 3,
        3 => 5,
        _ => 7,
    }
}

// Whether words of this length are taken in this mode: at least the check semi-octets, and at most 15 in all.
pub fn fits(mode: u32, long: usize) -> bool
    ensures { Decides (Fits mode long) result }
{
    if mode < 2 || 4 < mode || 15 < long {
        return false;
    }
    distance(mode as usize) - 1 <= long
}

// Whether words that are one longer are taken too, where there are such words.
pub fn fits_longer(mode: u32, long: usize, over: usize) -> bool
    requires { long ≤ 15 }
    ensures { Decides (0 < over → Fits mode (long + 1)) result }
{
    over == 0 || fits(mode, long + 1)
}

// Whether the elements from place n on are semi-octets: whether all bits that occur in them are low.
pub fn semi_octets(word: &[u8], n: usize) -> bool
    requires { n ≤ length word.now }
    ensures { Decides (SemiOctets (drop n word.now)) result }
{
    word[n..].iter().fold(0, |bits, c| bits | *c) < 16
}
