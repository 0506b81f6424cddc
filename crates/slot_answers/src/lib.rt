// What unprotecting a slot found, beside the frame, and what it tells with document 01's numbers (specs/Answers.antt).
// Inner: `slot` stands over it and hands it on to callers. It asks nothing.
#![tactic(auto)]

ghost use Rattle.std.specs.Prelude.{◌≡◌};

// The request of an accepted slot, and the counts of its changed semi-octets and of its changed bits.
#[derive(Clone, Copy)]
pub struct Reception {
    pub request: u8,
    pub count: u16,
    pub bits: u16,
}

impl Reception {
    // What is told of a refused slot beside the refusal's number.
    pub const NONE: Reception = Reception {
        request: 0,
        count: 0,
        bits: 0,
    };
}
