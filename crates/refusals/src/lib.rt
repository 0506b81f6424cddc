// Why something is refused: the table of refusals as an enum, with the causes of a bit error, and their numbers (specs/Numbers.antt).
// What a crate for callers can refuse is answered by a `Result` whose error this is, and `numbered` is the number that C is told.
// It stands over nothing; the crates for callers hand `Refusal` on.
#![tactic(auto)]

ghost use Rattle.std.specs.Prelude.{◌≡◌, ◌≤◌};
ghost use Rattle.refusals.specs.declared.Refusal.TheVariants.{BitError};
ghost use Rattle.refusals.specs.Numbers.{cause_number, refusal_number, refusal_cause, number_of};

// Why a frame has a bit error, in the order of the causes' numbers.
#[derive(Clone, Copy, Debug, PartialEq, Eq)]
pub enum Cause {
    Bandwidth,
    LastLine,
    Joint,
    Scaled,
    Escapes,
    Outside,
    Residual,
    Order,
}

// Why something is refused, in the order of the numbers.
#[derive(Clone, Copy, Debug, PartialEq, Eq)]
pub enum Refusal {
    Setting,
    Length,
    Beyond,
    Foreign,
    BitError(Cause),
    NoRoom,
    NotRecord,
    TooSmall,
}

impl Cause {
    // The cause's number.
    pub fn number(self) -> u8
        ensures value { result ≡ cause_number self }
        ensures upper_bound { result ≤ 8 }
    {
        match self {
            Cause::Bandwidth => 1,
            Cause::LastLine => 2,
            Cause::Joint => 3,
            Cause::Scaled => 4,
            Cause::Escapes => 5,
            Cause::Outside => 6,
            Cause::Residual => 7,
            Cause::Order => 8,
        }
    }
}

impl Refusal {
    // The refusal's number.
    pub fn number(self) -> u8
        ensures { result ≡ refusal_number self }
    {
        match self {
            Refusal::Setting => 1,
            Refusal::Length => 2,
            Refusal::Beyond => 3,
            Refusal::Foreign => 4,
            Refusal::BitError(_) => 5,
            Refusal::NoRoom => 6,
            Refusal::NotRecord => 7,
            Refusal::TooSmall => 8,
        }
    }

    // The number of the cause, 0 where it is no bit error.
    pub fn cause(self) -> u8
        ensures { result ≡ refusal_cause self }
    {
        match self {
            Refusal::BitError(why) => why.number(),
            _ => 0,
        }
    }
}

impl From<Cause> for Refusal {
    ghost from_gives = { λ why refusal. refusal ≡ BitError why };

    fn from(cause: Cause) -> Refusal {
        Refusal::BitError(cause)
    }
}

// The number of an answer: 0 where it was accepted.
pub fn numbered<T: Copy>(answer: Result<T, Refusal>) -> u8
    ensures { result ≡ number_of answer }
{
    match answer {
        Ok(_) => 0,
        Err(refusal) => refusal.number(),
    }
}
