// Errors taken off a word: all that an error word has, or one where the syndromes are those of one; and whether what is left is valid and
// near enough. Inner: `code_word_corrector` stands over it. It asks for t from 1 to 3 and for words of at most 15 semi-octets.
#![tactic(auto)]

ghost use Rattle.std.specs.Prelude.{◌≡◌, ◌≢◌, ◌+◌, ◌≤◌, ◌<◌, length, MatchOption};
ghost use Rattle.laws.specs.Decides.{Decides};
ghost use Rattle.code_word_laws.specs.Word.{ones};
ghost use Rattle.code_word_laws.specs.Correct.{WordCorrected};
ghost use Rattle.code_word_laws.specs.Corrector.{WordFor, Syndromes, Acceptable};
ghost use Rattle.code_word_laws.specs.Corrector.{IsTakenOff};

use code_word_syndromes::{both_counts, clear, row, syndrome, syndromes, times};
use gf16::SemiOctet;

// Takes the errors off, and counts them: the changed semi-octets, and 16 times the changed bits.
pub fn take_off(word: &mut [u8], e: u64) -> u32
    requires word_len_bound { length word.old ≤ 15 }
    ensures { IsTakenOff word.old e word.new result }
{
    let mut rest = e;
    let mut both: u32 = 0;
    for c in word.iter_mut() {
        let digit = (rest % 16) as u8;
        *c = *c ^ digit;
        both = both + both_counts(digit);
        rest = rest / 16;
    }
    both
}

// Whether the word, with so many changes, is valid and near enough.
pub fn accepted(word: &[u8], most: u8, count: u8) -> bool
    requires { WordFor word.now most }
    ensures { Decides (Acceptable most count word.now) result }
{
    count <= most && clear(syndromes(word), most)
}

// Takes one error off, where the syndromes are those of one: its value times its place is s1, and times its place again s2. The answer is
// its value, or none where it is not one error.
pub fn correct_one(word: &mut [u8], s: u64, most: u8) -> Option<u8>
    requires word_for { WordFor word.old most }
    requires syndromes { Syndromes word.old s }
    ensures { MatchOption result (word.new ≡ word.old)
        (λ v. (v < 16) × (v ≢ 0) × WordCorrected (most + 1) word.old word.new 1 (ones v)) }
{
    let s1 = syndrome(s, 1);
    let s2 = syndrome(s, 2);
    let i2 = SemiOctet(s2).inverse().0;
    let v = times(i2, times(s1, s1));
    if v == 0 {
        return None;
    }
    let i1 = SemiOctet(s1).inverse().0;
    let k = usize::from(SemiOctet(times(i1, s2)).logarithm());
    if word.len() <= k {
        return None;
    }
    if !clear(s ^ row(k, v), most) {
        return None;
    }
    let new = word[k] ^ v;
    word[k] = new;
    Some(v)
}
