// The field of 16 that Annex A's code words are made of: the semi-octet with its zero, its one, sum, product, inverse
// and logarithm. It stands over nothing. Each operation equals its definition in specs/Field.antt for every value of the inner byte, and
// proofs/Laws.antt has the field's laws. Nothing outside this crate depends on how a product is computed.
#![tactic(auto)]

ghost use Rattle.std.specs.Prelude.{◌≡◌, ◌*◌, ◌/◌, ◌%◌, ◌^◌, ◌≤◌, ◌<◌, eqb};
ghost use Rattle.gf16.specs.Field.{sum, product, power, inverse, logarithm};

// An element of the field (document 01: semi-octet). A sum is that of the whole byte; the other operations look at the low four bits.
#[derive(Clone, Copy)]
pub struct SemiOctet(pub u8);

impl SemiOctet {
    pub const ZERO: SemiOctet = SemiOctet(0);

    pub const ONE: SemiOctet = SemiOctet(1);

    // Whether the low four bits are those of the zero, which has no inverse. No derived `==`: that compares the whole byte.
    pub fn is_zero(self) -> bool
        ensures { result ≡ eqb (self.0 % 16) 0 }
    {
        self.0 % 16 == SemiOctet::ZERO.0
    }

    // Whether the low four bits are those of the one, by which nothing changes.
    pub fn is_one(self) -> bool
        ensures { result ≡ eqb (self.0 % 16) 1 }
    {
        self.0 % 16 == SemiOctet::ONE.0
    }

    // The field's sum: the coefficients' exclusive or.
    #[tactic(auto, unfolding(crate::specs::Field::sum))]
    pub fn sum(self, b: SemiOctet) -> SemiOctet
        ensures { result.0 ≡ sum self.0 b.0 }
    {
        SemiOctet(self.0 ^ b.0)
    }

    // The logarithm to the base x: which power of x the element is, from 0 to 14. Zero is none, and has 15, which is no logarithm.
    pub fn logarithm(self) -> u8
        ensures value { result ≡ logarithm self.0 }
        ensures upper_bound { result ≤ 15 }
    {
        digit(LOGARITHMS, self.0)
    }

    // The field's product: zero where a factor is, and else the power of x whose logarithm is the sum of theirs.
    pub fn product(self, b: SemiOctet) -> SemiOctet
        ensures { result.0 ≡ product self.0 b.0 }
    {
        if self.is_zero() {
            return SemiOctet::ZERO;
        }
        if b.is_zero() {
            return SemiOctet::ZERO;
        }
        SemiOctet(powered(self.logarithm() + b.logarithm()))
    }

    // The inverse of each element but zero, with what its logarithm lacks of 15; of zero it is zero.
    pub fn inverse(self) -> SemiOctet
        ensures value { result.0 ≡ inverse self.0 }
        ensures upper_bound { result.0 < 16 }
    {
        if self.is_zero() {
            return SemiOctet::ZERO;
        }
        SemiOctet(powered(15 - self.logarithm()))
    }
}

// Digit a is the logarithm of a, the lowest that of zero, which has none.
const LOGARITHMS: u64 = 0xcbd679e3a582410f;

// Digit n is the power n of x; the fifteenth is 1 again.
const POWERS: u64 = 0x19dfe7a5bc638421;

// Digit i of a table of sixteen, by its low four bits. A packed number is shifted: the proofs compute the products by its digits.
fn digit(table: u64, i: u8) -> u8
    ensures value { result ≡ table / 2 ^ (4 * (i % 16)) % 16 }
    ensures upper_bound { result ≤ 15 }
{
    ((table >> (4 * (i % 16))) % 16) as u8
}

// The power n of x, for a sum of two logarithms. It is reduced by counting sixteen as one, since x^15 is 1.
fn powered(n: u8) -> u8
    requires { n ≤ 30 }
    ensures value { result ≡ power 2 n }
    ensures upper_bound { result ≤ 15 }
{
    digit(POWERS, n + n / 16)
}
