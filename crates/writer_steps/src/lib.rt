// What the writer's steps hand each other, and in specs/ what they ask and promise of it beside the definitions of `writer_laws`. No code.
// Inner: the crates of `writer` stand over it.
#![tactic(auto)]

use frame_coder::Coder;

// The side stream: the number of bits written, and the last of them that fill no byte yet.
#[derive(Clone, Copy)]
pub struct Cursor {
    pub at: usize,
    pub held: usize,
}

// A pair behind its last symbol: the symbol, its level, and both streams.
#[derive(Clone, Copy)]
pub struct Walked {
    pub symbol: usize,
    pub level: usize,
    pub coder: Coder,
    pub side: Cursor,
}

// A pair behind its signs: the next context, and both streams.
#[derive(Clone, Copy)]
pub struct PairSent {
    pub context: usize,
    pub coder: Coder,
    pub side: Cursor,
}

// Both streams behind the pairs.
#[derive(Clone, Copy)]
pub struct PairsSent {
    pub coder: Coder,
    pub side: Cursor,
}
