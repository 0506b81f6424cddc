// The check semi-octets of a word: by a packed shift register, a division by the generating polynomial with all coefficients of the
// remainder in one number (specs/Register.antt of `code_word_laws`), and the table of what each data semi-octet adds to them (`checks`).
// One code for every mode.
// Inner: `code_word` stands over it. It asks for a mode in range, and for data that are semi-octets behind room for the check.
#![tactic(auto)]

ghost use Rattle.std.specs.Prelude.{◌≡◌, ◌-◌, ◌≤◌, ◌<◌, length, drop};
ghost use Rattle.code_word_laws.specs.Word.{SemiOctets, distance};
ghost use Rattle.code_word_laws.specs.Register.{feedback, fed, register, with_checks};

pub mod checks;

// Entry f is f times the generating polynomial of degree 2 without its leading power, the highest coefficient in the lowest digit.
static TWO: [u64; 16] = [
    0x00, 0x86, 0x3c, 0xba, 0x6b, 0xed, 0x57, 0xd1, 0xc5, 0x43, 0xf9, 0x7f, 0xae, 0x28, 0x92, 0x14,
];

// The same of degree 4.
static FOUR: [u64; 16] = [
    0x0000, 0x78cd, 0xe3b9, 0x9b74, 0xf651, 0x8e9c, 0x15e8, 0x6d25, 0xdca2, 0xa46f, 0x3f1b, 0x47d6,
    0x2af3, 0x523e, 0xc94a, 0xb187,
];

// The same of degree 6.
static SIX: [u64; 16] = [
    0x000000, 0xcac397, 0xb7b61e, 0x7d7589, 0x5e5c2f, 0x949fb8, 0xe9ea31, 0x2329a6, 0xafab4d,
    0x6568da, 0x181d53, 0xd2dec4, 0xf1f762, 0x3b34f5, 0x46417c, 0x8c82eb,
];

// The table of a mode.
pub fn rows(mode: u32) -> &'static [u64; 16]
    requires le_mode { 2 ≤ mode }
    requires mode_bound { mode ≤ 4 }
    ensures { result.now ≡ feedback (distance mode - 1) }
{
    match mode {
        2 => &TWO,
        3 => &FOUR,
        _ => &SIX,
    }
}

// The register after one semi-octet more.
fn shift(rows: &[u64; 16], r: u64, c: u8) -> u64
    requires { c < 16 }
    ensures { result ≡ fed rows.now r c }
{
    ((r / 16) ^ rows[c as usize]) ^ rows[(r % 16) as usize]
}

// What the data from place n on leave, from the last semi-octet down.
pub fn divide(rows: &[u64; 16], word: &[u8], n: usize) -> u64
    requires n_in_bounds { n ≤ length word.now }
    requires semi_octets { SemiOctets (drop n word.now) }
    ensures { result ≡ register rows.now (drop n word.now) }
{
    let mut r = 0;
    for i in (n..word.len()).rev() {
        r = shift(rows, r, word[i]);
    }
    r
}

// The digits of the register into the n check semi-octets.
pub fn put_checks(word: &mut [u8], n: usize, register: u64)
    requires { n ≤ length word.old }
    ensures { word.new ≡ with_checks n register (drop n word.old) }
{
    let mut r = register;
    for k in (0..n).rev() {
        word[k] = (r % 16) as u8;
        r = r / 16;
    }
}
