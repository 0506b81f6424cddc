// The two hashes (A.20 to A.25) from the highest power down: four semi-octets at a time, so that the remainder waits for a table
// once in four.
// Inner: `slot_ordering` stands over it. It asks for a size and a mode in range and for a frame's semi-octets of their number.
#![tactic(auto)]

ghost use Rattle.std.specs.Prelude.{◌≡◌, ◌+◌, ◌*◌, ◌/◌, ◌%◌, ◌^◌, ◌<◌, length};
ghost use Rattle.slot_laws.specs.Sizes.{InRange, frame_size};
ghost use Rattle.slot_laws.specs.Hash.{pushed, hash, bits_of};
ghost use Rattle.slot_hashing.specs.Inner.{Divisor, Stepped, semi_pushed, four_pushed};
ghost use Rattle.slot_laws.specs.Order.{first_hash, second_hash};

// A polynomial that a remainder is by, bit i for x^i, and its table: entry 16 k + t is what t, as semi-octet k of the sixteen highest bits
// of a remainder, comes to sixteen powers higher.
struct Polynomial {
    bits: u32,
    degree: u32,
    steps: [u32; 64],
}

// A.21.
const FOURTEEN: u32 = 0x4645;

// A.21 times x^2: a remainder by it has the sixteen bits that four semi-octets need, and is x^2 times the one by A.21.
static RAISED: Polynomial = Polynomial {
    bits: 0x1_1914,
    degree: 16,
    steps: [
        0x0000, 0x1914, 0x3228, 0x2b3c, 0x6450, 0x7d44, 0x5678, 0x4f6c, 0xc8a0, 0xd1b4, 0xfa88,
        0xe39c, 0xacf0, 0xb5e4, 0x9ed8, 0x87cc, 0x0000, 0x8854, 0x09bc, 0x81e8, 0x1378, 0x9b2c,
        0x1ac4, 0x9290, 0x26f0, 0xaea4, 0x2f4c, 0xa718, 0x3588, 0xbddc, 0x3c34, 0xb460, 0x0000,
        0x4de0, 0x9bc0, 0xd620, 0x2e94, 0x6374, 0xb554, 0xf8b4, 0x5d28, 0x10c8, 0xc6e8, 0x8b08,
        0x73bc, 0x3e5c, 0xe87c, 0xa59c, 0x0000, 0xba50, 0x6db4, 0xd7e4, 0xdb68, 0x6138, 0xb6dc,
        0x0c8c, 0xafc4, 0x1594, 0xc270, 0x7820, 0x74ac, 0xcefc, 0x1918, 0xa348,
    ],
};

// A.22.
static TWENTY_TWO: Polynomial = Polynomial {
    bits: 0x49_0f29,
    degree: 22,
    steps: [
        0x00_0000, 0x09_0f29, 0x12_1e52, 0x1b_117b, 0x24_3ca4, 0x2d_338d, 0x36_22f6, 0x3f_2ddf,
        0x01_7661, 0x08_7948, 0x13_6833, 0x1a_671a, 0x25_4ac5, 0x2c_45ec, 0x37_5497, 0x3e_5bbe,
        0x00_0000, 0x02_ecc2, 0x05_d984, 0x07_3546, 0x0b_b308, 0x09_5fca, 0x0e_6a8c, 0x0c_864e,
        0x17_6610, 0x15_8ad2, 0x12_bf94, 0x10_5356, 0x1c_d518, 0x1e_39da, 0x19_0c9c, 0x1b_e05e,
        0x00_0000, 0x2e_cc20, 0x14_9769, 0x3a_5b49, 0x29_2ed2, 0x07_e2f2, 0x3d_b9bb, 0x13_759b,
        0x1b_528d, 0x35_9ead, 0x0f_c5e4, 0x21_09c4, 0x32_7c5f, 0x1c_b07f, 0x26_eb36, 0x08_2716,
        0x00_0000, 0x36_a51a, 0x24_451d, 0x12_e007, 0x01_8513, 0x37_2009, 0x25_c00e, 0x13_6514,
        0x03_0a26, 0x35_af3c, 0x27_4f3b, 0x11_ea21, 0x02_8f35, 0x34_2a2f, 0x26_ca28, 0x10_6f32,
    ],
};

// A.23.
static SIXTEEN: Polynomial = Polynomial {
    bits: 0x1_a2eb,
    degree: 16,
    steps: [
        0x0000, 0xa2eb, 0xe73d, 0x45d6, 0x6c91, 0xce7a, 0x8bac, 0x2947, 0xd922, 0x7bc9, 0x3e1f,
        0x9cf4, 0xb5b3, 0x1758, 0x528e, 0xf065, 0x0000, 0x10af, 0x215e, 0x31f1, 0x42bc, 0x5213,
        0x63e2, 0x734d, 0x8578, 0x95d7, 0xa426, 0xb489, 0xc7c4, 0xd76b, 0xe69a, 0xf635, 0x0000,
        0xa81b, 0xf2dd, 0x5ac6, 0x4751, 0xef4a, 0xb58c, 0x1d97, 0x8ea2, 0x26b9, 0x7c7f, 0xd464,
        0xc9f3, 0x61e8, 0x3b2e, 0x9335, 0x0000, 0xbfaf, 0xddb5, 0x621a, 0x1981, 0xa62e, 0xc434,
        0x7b9b, 0x3302, 0x8cad, 0xeeb7, 0x5118, 0x2a83, 0x952c, 0xf736, 0x4899,
    ],
};

// The remainder one power higher and with the bit b at power n, reduced by p.
fn push(p: u32, n: u32, b: u32, r: u32) -> u32
    requires divisor { Divisor p n }
    requires b_bound { b < 2 }
    requires r_bound { r < 2 ^ n }
    ensures value { result ≡ pushed p n b r }
    ensures upper_bound { result < 2 ^ n }
{
    let v = (2 * r) ^ (b << n);
    v ^ ((v >> n) * p)
}

// The four bits of a semi-octet at once: they and the four highest of the remainder enter as their sum.
fn push_semi(by: &Polynomial, c: u8, r: u32) -> u32
    requires stepped { Stepped by.now.bits by.now.degree by.now.steps }
    requires r_bound { r < 2 ^ by.now.degree }
    ensures value { result ≡ semi_pushed by.now.bits by.now.degree c r }
    ensures upper_bound { result < 2 ^ by.now.degree }
{
    let n = by.degree;
    let t = (r >> (n - 4)) ^ u32::from(c % 16);
    ((r % (1 << (n - 4))) * 16) ^ by.steps[t as usize]
}

// The hash of a row of semi-octets.
fn hash_of(by: &Polynomial, s: &[u8]) -> u32
    requires { Stepped by.now.bits by.now.degree by.now.steps }
    ensures value { result ≡ hash by.now.bits by.now.degree (bits_of s.now) }
    ensures upper_bound { result < 2 ^ by.now.degree }
{
    let mut r = 0;
    for c in s.iter().rev() {
        r = push_semi(by, *c, r);
    }
    r
}

// Four semi-octets at once, the last of the highest powers: they and the sixteen highest bits of the remainder enter as their sum.
fn push_four(by: &Polynomial, four: &[u8; 4], r: u32) -> u32
    requires stepped { Stepped by.now.bits by.now.degree by.now.steps }
    requires r_bound { r < 2 ^ by.now.degree }
    ensures value { result ≡ four_pushed by.now.bits by.now.degree four.now r }
    ensures upper_bound { result < 2 ^ by.now.degree }
    ensures four_len { length four.now ≡ 4 }
{
    let n = by.degree;
    let a = u32::from(four[0] % 16);
    let b = u32::from(four[1] % 16);
    let c = u32::from(four[2] % 16);
    let d = u32::from(four[3] % 16);
    let t = (r >> (n - 16)) ^ (a + 16 * b + 256 * c + 4096 * d);
    let kept = (r % (1 << (n - 16))) * 65536;
    let upper = by.steps[(48 + t / 4096) as usize] ^ by.steps[(32 + t / 256 % 16) as usize];
    let lower = by.steps[(16 + t / 16 % 16) as usize] ^ by.steps[(t % 16) as usize];
    (kept ^ upper) ^ lower
}

// The hash of a row of semi-octets, by fours; those of the highest powers that make no four come first.
// In line, the degree is known, and each shift is by a constant.
#[inline(always)]
fn hash_by_fours(by: &Polynomial, s: &[u8]) -> u32
    requires { Stepped by.now.bits by.now.degree by.now.steps }
    ensures value { result ≡ hash by.now.bits by.now.degree (bits_of s.now) }
    ensures upper_bound { result < 2 ^ by.now.degree }
{
    let (fours, rest) = s.as_chunks::<4>();
    let mut r = hash_of(by, rest);
    for four in fours.iter().rev() {
        r = push_four(by, four, r);
    }
    r
}

// The request's bits are those of the lowest powers, so they are pushed last.
fn with_request(p: u32, n: u32, request: u32, r: u32) -> u32
    requires divisor { Divisor p n }
    requires r_bound { r < 2 ^ n }
    ensures value { result ≡ pushed p n (request % 2) (pushed p n (request / 2 % 2) r) }
    ensures upper_bound { result < 2 ^ n }
{
    push(p, n, request % 2, push(p, n, request / 2 % 2, r))
}

// The first hash, over the request and the frame without the partial concealment block.
pub fn first_hash(size: usize, mode: usize, request: u32, a: &[u8]) -> u32
    requires in_range { InRange size mode }
    requires a_len { length a.now ≡ 2 * frame_size size mode }
    ensures value { result ≡ first_hash size mode request a.now }
    ensures upper_bound { result < 4194304 }
{
    let e = 2 * slot_sizes::frame_bytes(size, mode) - slot_sizes::conceal_size(size, mode);
    match size {
        40 => with_request(FOURTEEN, 14, request, hash_by_fours(&RAISED, &a[..e]) / 4),
        _ => with_request(
            TWENTY_TWO.bits,
            TWENTY_TWO.degree,
            request,
            hash_by_fours(&TWENTY_TWO, &a[..e]),
        ),
    }
}

// The second hash, over the partial concealment block.
pub fn second_hash(size: usize, mode: usize, a: &[u8]) -> u32
    requires in_range { InRange size mode }
    requires a_len { length a.now ≡ 2 * frame_size size mode }
    ensures { result ≡ second_hash size mode a.now }
{
    let e = 2 * slot_sizes::frame_bytes(size, mode) - slot_sizes::conceal_size(size, mode);
    hash_by_fours(&SIXTEEN, &a[e..])
}
