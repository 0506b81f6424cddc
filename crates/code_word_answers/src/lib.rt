// What correcting a word found: the counts of changed semi-octets and of changed bits, and those that C is told (specs/Answers.antt).
// Inner: `code_word` stands over it and hands it on to callers. It asks nothing.
#![tactic(auto)]

// The counts of changed semi-octets and of changed bits of a corrected word.
#[derive(Clone, Copy, Debug, PartialEq, Eq)]
pub struct Correction {
    pub count: u8,
    pub bits: u8,
}
