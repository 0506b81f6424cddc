// The error locator and the error word: from a word's syndromes the recurrence by which the sums of at most t errors go on, and the errors
// that these sums are transformed back to. Inner: `code_word_corrector` stands over it. It asks for t from 1 to 3
// and for semi-octets.
#![tactic(auto)]

ghost use Rattle.std.specs.Prelude.{◌≡◌, [], ◌∷◌, ◌<◌};
ghost use Rattle.code_word_laws.specs.Word.{SemiOctets};
ghost use Rattle.code_word_laws.specs.Corrector.{Sought, IsLocator, minor_two, triple};
ghost use Rattle.code_word_laws.specs.Corrector.{Started, Transformed, ErrorWord};
ghost use Rattle.code_word_laws.specs.Corrector.{ThirdMinorZero, MinorsZero, ThirdMinor, SecondMinor};

use code_word_syndromes::{row, syndrome, times};
use gf16::SemiOctet;

// A minor of two rows of the sums.
fn minor_two(a: u8, b: u8, c: u8, d: u8) -> u8
    requires semi_octets { SemiOctets (a ∷ b ∷ c ∷ d ∷ []) }
    ensures value { result ≡ minor_two a b c d }
    ensures upper_bound { result < 16 }
{
    times(a, d) ^ times(b, c)
}

// A sum of three products: a minor of three rows along its last, or a sum by the locator.
fn tripled(a: u8, x: u8, b: u8, y: u8, c: u8, z: u8) -> u8
    requires semi_octets { SemiOctets (a ∷ x ∷ b ∷ y ∷ c ∷ z ∷ []) }
    ensures value { result ≡ triple a x b y c z }
    ensures upper_bound { result < 16 }
{
    (times(a, x) ^ times(b, y)) ^ times(c, z)
}

// The error locator, as the recurrence of the sums of the errors: a sum is the first times the one before it, the second times the one
// before that, the third times the one before that. The recurrence starts with the third sum as the last of those known.
#[derive(Clone, Copy)]
pub struct Locator {
    pub first: u8,
    pub second: u8,
    pub third: u8,
    pub start: u8,
}

// The locator where the leading minor d of three rows is not 0.
fn locator_three(s: u64, d: u8) -> Locator
    requires third_minor { ThirdMinor s d }
    ensures { IsLocator 3 s result.first result.second result.third result.start }
{
    let s1 = syndrome(s, 1);
    let s2 = syndrome(s, 2);
    let s3 = syndrome(s, 3);
    let s4 = syndrome(s, 4);
    let s5 = syndrome(s, 5);
    let s6 = syndrome(s, 6);
    let m01 = minor_two(s1, s2, s2, s3);
    let m02 = minor_two(s1, s3, s2, s4);
    let m03 = minor_two(s1, s4, s2, s5);
    let m12 = minor_two(s2, s3, s3, s4);
    let m13 = minor_two(s2, s4, s3, s5);
    let m23 = minor_two(s3, s4, s4, s5);
    let first = tripled(m13, s3, m03, s4, m01, s6);
    let second = tripled(m23, s3, m03, s5, m02, s6);
    let third = tripled(m23, s4, m13, s5, m12, s6);
    let i = SemiOctet(d).inverse().0;
    Locator {
        first: times(i, first),
        second: times(i, second),
        third: times(i, third),
        start: s3,
    }
}

// The locator where the leading minor c of two rows is not 0, and that of three is.
fn locator_two(s: u64, most: u8, c: u8) -> Locator
    requires second_minor { SecondMinor most s c }
    ensures { IsLocator most s result.first result.second result.third result.start }
{
    let s1 = syndrome(s, 1);
    let s2 = syndrome(s, 2);
    let s3 = syndrome(s, 3);
    let s4 = syndrome(s, 4);
    let first = minor_two(s1, s3, s2, s4);
    let second = minor_two(s2, s3, s3, s4);
    let i = SemiOctet(c).inverse().0;
    Locator {
        first: times(i, first),
        second: times(i, second),
        third: 0,
        start: s3,
    }
}

// The locator of one error at most, where both leading minors are 0.
fn locator_one(s: u64, most: u8) -> Locator
    requires sought { Sought most }
    requires minors_zero { MinorsZero most s }
    ensures { IsLocator most s result.first result.second result.third result.start }
{
    let s2 = syndrome(s, 2);
    let i = SemiOctet(syndrome(s, 1)).inverse().0;
    let first = times(i, s2);
    let start = if most == 1 {
        times(first, s2)
    } else {
        syndrome(s, 3)
    };
    Locator {
        first,
        second: 0,
        third: 0,
        start,
    }
}

// The locator of two errors at most.
fn locator_low(s: u64, most: u8) -> Locator
    requires sought { Sought most }
    requires third_minor_zero { ThirdMinorZero most s }
    ensures { IsLocator most s result.first result.second result.third result.start }
{
    if most == 1 {
        return locator_one(s, most);
    }
    let s2 = syndrome(s, 2);
    let c = minor_two(syndrome(s, 1), s2, s2, syndrome(s, 3));
    if c != 0 {
        return locator_two(s, most, c);
    }
    locator_one(s, most)
}

// The locator of at most t errors with these syndromes.
fn find_locator(s: u64, most: u8) -> Locator
    requires { Sought most }
    ensures { IsLocator most s result.first result.second result.third result.start }
{
    if most < 3 {
        return locator_low(s, most);
    }
    let s1 = syndrome(s, 1);
    let s2 = syndrome(s, 2);
    let s3 = syndrome(s, 3);
    let s4 = syndrome(s, 4);
    let m01 = minor_two(s1, s2, s2, s3);
    let m02 = minor_two(s1, s3, s2, s4);
    let m12 = minor_two(s2, s3, s3, s4);
    let d = tripled(m12, s3, m02, s4, m01, syndrome(s, 5));
    if d != 0 {
        return locator_three(s, d);
    }
    locator_low(s, most)
}

// The error values, packed: fifteen sums by the locator, each transformed back as it is made.
fn errors(r: Locator, s1: u8, s2: u8) -> u64
    requires { Started r.first r.second r.third s1 s2 r.start }
    ensures { Transformed r.first r.second r.third s1 s2 r.start result }
{
    let mut e = (row(14, s1) ^ row(13, s2)) ^ row(12, r.start);
    let mut a = r.start;
    let mut b = s2;
    let mut c = s1;
    for n in (0..12).rev() {
        let x = tripled(r.second, b, r.third, c, r.first, a);
        e = e ^ row(n, x);
        c = b;
        b = a;
        a = x;
    }
    e
}

// The error word: the errors that explain the syndromes, if at most t do.
pub fn error_word(s: u64, most: u8) -> u64
    requires { Sought most }
    ensures { ErrorWord most s result }
{
    let r = find_locator(s, most);
    errors(r, syndrome(s, 1), syndrome(s, 2))
}
