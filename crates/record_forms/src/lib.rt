// The two forms of a session record, as data: how long an entry's trailer and the record's end are (specs/Forms.antt), which form a number
// names; and the ranges of an entry's fields (specs/Ranges.antt). It stands over `refusals`.
// Inner: `record_bytes` and what stands over it. It asks nothing but for `bits_in_range`, whose caller has tested the count.
#![tactic(auto)]

ghost use Rattle.std.specs.Prelude.{◌≡◌, ◌≤◌};
ghost use Rattle.record_forms.specs.Forms.{trailer_size, end_size, which_form};
ghost use Rattle.record_forms.specs.Ranges.{bits_in_range, in_range, held_bits};

use refusals::Refusal;

// A record's form.
#[derive(Clone, Copy)]
pub enum Form {
    One,
    Two,
}

// The form that a number names: 1 or 2, all bits of the number looked at.
impl TryFrom<u32> for Form {
    type Error = Refusal;

    ghost try_from_gives = { λ number form. form ≡ which_form number };

    #[tactic(auto, using(std::proofs::lemmas::Bool::Decides::nat_tests), unfolding(crate::specs::Forms::which_form))]
    fn try_from(number: u32) -> Result<Form, Refusal> {
        match number {
            1 => Ok(Form::One),
            2 => Ok(Form::Two),
            _ => Err(Refusal::Setting),
        }
    }
}

impl Form {
    // The bytes of an entry beside its frame.
    pub fn trailer(self) -> usize
        ensures { result ≡ trailer_size self }
    {
        match self {
            Form::One => 4,
            Form::Two => 6,
        }
    }

    // What is joined to the two bytes where an entry's bits stand in form 2: the unknown bits where the form has none.
    pub fn joined_bits(self) -> usize
        ensures { result ≡ held_bits self 0 }
    {
        match self {
            Form::One => 65535,
            Form::Two => 0,
        }
    }

    // The bytes behind the last entry.
    pub fn end(self) -> usize
        ensures { result ≡ end_size self }
    {
        match self {
            Form::One => 4,
            Form::Two => 5,
        }
    }
}

// The range of an entry's bits, which are unknown or as many as so many changed semi-octets can have. Test by test: one `||` is slower.
#[tactic(auto, using(std::proofs::lemmas::Bool::Decides::nat_tests), unfolding(crate::specs::Ranges::bits_in_range))]
fn bits_in_range(count: usize, bits: usize) -> bool
    requires { count ≤ 162 }
    ensures { result ≡ bits_in_range count bits }
{
    if bits == 65535 {
        return true;
    }
    if bits < count {
        return false;
    }
    bits <= 4 * count
}

// The ranges of an entry's fields, one `match` in the other: as one `&&` the walk of form 2 is slower.
#[tactic(auto, using(std::proofs::lemmas::Bool::Decides::nat_tests), unfolding(crate::specs::Ranges::in_range))]
pub fn in_range(request: usize, count: usize, bits: usize, length: usize) -> bool
    ensures { result ≡ in_range request count bits length }
{
    match request {
        0..=3 => match length {
            20..=400 => match count {
                0..=162 => bits_in_range(count, bits),
                _ => false,
            },
            _ => false,
        },
        _ => false,
    }
}
