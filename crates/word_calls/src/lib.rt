// The functions of `code_word` under C names, for the tests and the benchmark in tests/code_word: the answers as document 01's numbers.
// It stands over `code_word`, and each contract is that of the function called, with the number in place of the answer.
#![tactic(auto)]

ghost use Rattle.code_word.specs.Make.{Makes};
ghost use Rattle.code_word.specs.Correct.{Corrects, CorrectsEach};

use refusals::numbered;

#[repr(C)]
#[derive(Clone, Copy)]
pub struct WordAnswer {
    pub number: u8,
    pub count: u8,
    pub bits: u8,
}

// A word's check semi-octets made, or 1.
#[unsafe(no_mangle)]
pub extern "C" fn word_make(word: &mut [u8], mode: u32) -> u8
    ensures { Makes mode word.old word.new result }
{
    numbered(code_word::make(word, mode))
}

// A word corrected: the answer's number and the counts.
#[unsafe(no_mangle)]
pub extern "C" fn word_correct(word: &mut [u8], mode: u32) -> WordAnswer
    ensures { Corrects mode word.old word.new result.number result.count result.bits }
{
    match code_word::correct(word, mode) {
        Ok(found) => WordAnswer {
            number: 0,
            count: found.count,
            bits: found.bits,
        },
        Err(refusal) => WordAnswer {
            number: refusal.number(),
            count: 0,
            bits: 0,
        },
    }
}

// Many words corrected: the answer's number.
#[unsafe(no_mangle)]
pub extern "C" fn word_correct_each(
    words: &mut [u8],
    mode: u32,
    counts: &mut [u8],
    bits: &mut [u8],
) -> u8
    ensures { CorrectsEach mode words.old counts.old bits.old words.new
        counts.new bits.new result }
{
    numbered(code_word::correct_each(words, mode, counts, bits))
}
