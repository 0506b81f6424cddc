// One Reed-Solomon code word of Annex A over the field of 16 (crate `gf16`): its check semi-octets, and its correction.
// Promised, for every word and mode: `make` leaves the only valid word over the data; `correct` leaves the only valid word of the word's
// own length within m - 1 places, with the counts of places and of bits, or says that there is none and leaves the word as it was lent;
// `correct_each` does so for many words; `with_data` sums up, with the table of `check_rows`, the check semi-octets of a word whose data
// come one by one.
// What is out of range gets an answer of its own. specs/ of `code_word_laws` says what is right, and its proofs/ has the distance argument,
// once for d.
#![tactic(auto)]

ghost use Rattle.std.specs.Prelude.{◌≡◌};
ghost use Rattle.code_word_laws.specs.Checks.{IsCheckRows, with_data};
ghost use Rattle.refusals.specs.Numbers.{number_of};
ghost use Rattle.code_word_answers.specs.Answers.{corrected_count, corrected_bits};
ghost use Rattle.code_word.specs.Make.{Makes};
ghost use Rattle.code_word.specs.Correct.{Corrects, CorrectsEach};

pub use code_word_answers::Correction;
pub use refusals::Refusal;

// The word's check semi-octets in front of its data (A.43 to A.45), in mode 2, 3 or 4.
pub fn make(word: &mut [u8], mode: u32) -> Result<(), Refusal>
    ensures { Makes mode word.old word.new (number_of result) }
{
    if !code_word_settings::fits(mode, word.len()) {
        return Err(Refusal::Setting);
    }
    let n = code_word_settings::distance(mode as usize) - 1;
    if !code_word_settings::semi_octets(word, n) {
        return Err(Refusal::Setting);
    }
    let rows = code_word_encoder::rows(mode);
    let r = code_word_encoder::divide(rows, word, n);
    code_word_encoder::put_checks(word, n, r);
    Ok(())
}

// What each data semi-octet adds to the check semi-octets in a mode, for `with_data`.
pub fn check_rows(mode: u32) -> &'static [u32; 208]
    ensures { IsCheckRows mode result.now }
{
    code_word_encoder::checks::check_rows(mode)
}

// The sum of check semi-octets, packed, with what c at data place k adds: over all data of a word, from 0, they are the word's.
#[tactic(auto, unfolding(code_word_laws::specs::Checks::with_data))]
pub fn with_data(rows: &[u32; 208], k: usize, c: u8, r: u32) -> u32
    ensures { result ≡ with_data rows.now k c r }
{
    if 13 <= k {
        return r;
    }
    r ^ rows[16 * k + (c % 16) as usize]
}

// Corrects a word of semi-octets to the only valid one of its length within m - 1 places.
pub fn correct(word: &mut [u8], mode: u32) -> Result<Correction, Refusal>
    ensures { Corrects mode word.old word.new (number_of result) (corrected_count result) (corrected_bits result) }
{
    if !code_word_settings::fits(mode, word.len()) {
        return Err(Refusal::Setting);
    }
    if !code_word_settings::semi_octets(word, 0) {
        return Err(Refusal::Setting);
    }
    let both = code_word_corrector::correct_word(word, (mode - 1) as u8).ok_or(Refusal::Beyond)?;
    Ok(Correction {
        count: (both % 16) as u8,
        bits: (both / 16) as u8,
    })
}

// Corrects as many words as there are counts, with the semi-octets in one buffer and the bits in another: the words stand one after the
// other, as even in length as can be, the longer first.
pub fn correct_each(
    words: &mut [u8],
    mode: u32,
    counts: &mut [u8],
    bits: &mut [u8],
) -> Result<(), Refusal>
    ensures { CorrectsEach mode words.old counts.old bits.old words.new
        counts.new bits.new (number_of result) }
{
    if counts.is_empty() {
        return Err(Refusal::Setting);
    }
    if bits.len() != counts.len() {
        return Err(Refusal::Setting);
    }
    let long = words.len() / counts.len();
    let over = words.len() % counts.len();
    if !code_word_settings::fits(mode, long) {
        return Err(Refusal::Setting);
    }
    if !code_word_settings::fits_longer(mode, long, over) {
        return Err(Refusal::Setting);
    }
    if !code_word_settings::semi_octets(words, 0) {
        return Err(Refusal::Setting);
    }
    let most = (mode - 1) as u8;
    code_word_corrector::correct_words(words, long, over, most, counts, bits);
    Ok(())
}
