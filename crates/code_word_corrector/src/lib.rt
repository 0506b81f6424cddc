// How words are corrected. A word whose syndromes are 0 is left at once; where they are those of one error, it is taken off; else the
// error word of `code_word_locator` is. The word with the errors taken off is tested, and put back where it is not valid.
// Inner: `code_word` and `slot_repair` stand over it. It asks for t from 1 to 3 and for words of at most 15 semi-octets.
#![tactic(auto)]

ghost use Rattle.std.specs.Prelude.{cond, ◌≡◌, ◌+◌, ◌/◌, ◌%◌, ◌≤◌, ltb, length, MatchOption};
ghost use Rattle.code_word_laws.specs.Word.{SemiOctets};
ghost use Rattle.code_word_laws.specs.Correct.{WordCorrected, EachCorrected};
ghost use Rattle.code_word_laws.specs.Corrector.{Sought, WordFor, Dealt};

use code_word_errors::{accepted, correct_one, take_off};
use code_word_locator::error_word;
use code_word_syndromes::{both_counts, clear, syndromes};

// Corrects one word, and answers its changed semi-octets and 16 times its changed bits, or none where no valid word is near, and then the
// word is as it was lent. Both counts in one number: a struct of them goes through memory, a third more time a word.
pub fn correct_word(word: &mut [u8], most: u8) -> Option<u32>
    requires { WordFor word.old most }
    ensures { MatchOption result (WordCorrected (most + 1) word.old word.new (most + 1) 0)
        (λ both. (both ≤ 975) × (both % 16 ≤ most) × WordCorrected (most + 1) word.old word.new (both % 16) (both / 16)) }
{
    let s = syndromes(word);
    if clear(s, most) {
        return Some(0);
    }
    if let Some(v) = correct_one(word, s, most) {
        return Some(both_counts(v));
    }
    let e = error_word(s, most);
    let both = take_off(word, e);
    if !accepted(word, most, (both % 16) as u8) {
        take_off(word, e);
        return None;
    }
    Some(both)
}

// The length of word i: one more for the words that come first.
fn dealt(long: usize, over: usize, i: usize) -> usize
    requires { long ≤ 15 }
    ensures { result ≡ cond (ltb i over) (long + 1) long }
{
    if i < over { long + 1 } else { long }
}

// Corrects each word, and leaves its counts, or t + 1 and 0 where it has none.
pub fn correct_words(
    words: &mut [u8],
    long: usize,
    over: usize,
    most: u8,
    counts: &mut [u8],
    bits: &mut [u8],
)
    requires sought { Sought most }
    requires dealt { Dealt (length words.old) (length counts.old) long over }
    requires semi_octets { SemiOctets words.old }
    requires bits_len { length bits.old ≡ length counts.old }
    ensures { EachCorrected (most + 1) words.old words.new counts.new bits.new }
{
    let mut at = 0;
    for i in 0..counts.len() {
        let end = at + dealt(long, over, i);
        let both = correct_word(&mut words[at..end], most).unwrap_or(most as u32 + 1);
        counts[i] = (both % 16) as u8;
        bits[i] = (both / 16) as u8;
        at = end;
    }
}
