// The corrector's table, the field's product and both counts of an error from it, and a word's syndromes: its values at 2^0 .. 2^14 are
// read from the table and added up, packed in one number; those at 2^1 .. 2^(2 t) are those of its errors alone.
// Inner: `code_word_locator`, `code_word_errors` and `code_word_corrector` stand over it. It asks for t from 1 to 3 and for semi-octets.
#![tactic(auto)]

ghost use Rattle.std.specs.Prelude.{◌≡◌, ◌+◌, ◌%◌, ◌^◌, ◌≤◌, ◌<◌, length};
ghost use Rattle.laws.specs.Decides.{Decides};
ghost use Rattle.gf16.specs.Field.{product};
ghost use Rattle.code_word_laws.specs.Packed.{nibble};
ghost use Rattle.code_word_laws.specs.Word.{SemiOctets};
ghost use Rattle.code_word_laws.specs.Corrector.{both_of, Table, Row, Syndromes, Clear};

// Number 16 a + b: the digits from the lowest on are b times 2^(a j) for j = 0 .. 14, and the highest is a times b. At a = 15 no digit but
// the highest is read there, so the low half has both counts of an error of value b: 1 as a changed semi-octet, and 16 for each of its
// ones.
static TABLE: [u64; 256] = [
    0x0000000000000000,
    0x0111111111111111,
    0x0222222222222222,
    0x0333333333333333,
    0x0444444444444444,
    0x0555555555555555,
    0x0666666666666666,
    0x0777777777777777,
    0x0888888888888888,
    0x0999999999999999,
    0x0aaaaaaaaaaaaaaa,
    0x0bbbbbbbbbbbbbbb,
    0x0ccccccccccccccc,
    0x0ddddddddddddddd,
    0x0eeeeeeeeeeeeeee,
    0x0fffffffffffffff,
    0x0000000000000000,
    0x19dfe7a5bc638421,
    0x219dfe7a5bc63842,
    0x384219dfe7a5bc63,
    0x4219dfe7a5bc6384,
    0x5bc6384219dfe7a5,
    0x6384219dfe7a5bc6,
    0x7a5bc6384219dfe7,
    0x84219dfe7a5bc638,
    0x9dfe7a5bc6384219,
    0xa5bc6384219dfe7a,
    0xbc6384219dfe7a5b,
    0xc6384219dfe7a5bc,
    0xdfe7a5bc6384219d,
    0xe7a5bc6384219dfe,
    0xfe7a5bc6384219df,
    0x0000000000000000,
    0x2deab6829f75c341,
    0x49f75c341deab682,
    0x641deab6829f75c3,
    0x81deab6829f75c34,
    0xac341deab6829f75,
    0xc829f75c341deab6,
    0xe5c341deab6829f7,
    0x329f75c341deab68,
    0x1f75c341deab6829,
    0x7b6829f75c341dea,
    0x56829f75c341deab,
    0xb341deab6829f75c,
    0x9eab6829f75c341d,
    0xfab6829f75c341de,
    0xd75c341deab6829f,
    0x0000000000000000,
    0x3fac81fac81fac81,
    0x6d7b32d7b32d7b32,
    0x52d7b32d7b32d7b3,
    0xc9e5649e5649e564,
    0xf649e5649e5649e5,
    0xa49e5649e5649e56,
    0x9b32d7b32d7b32d7,
    0xb1fac81fac81fac8,
    0x8e5649e5649e5649,
    0xdc81fac81fac81fa,
    0xe32d7b32d7b32d7b,
    0x781fac81fac81fac,
    0x47b32d7b32d7b32d,
    0x15649e5649e5649e,
    0x2ac81fac81fac81f,
    0x0000000000000000,
    0x4eb897c4da62f531,
    0x8f531eb897c4da62,
    0xc1eb897c4da62f53,
    0x3da62f531eb897c4,
    0x731eb897c4da62f5,
    0xb2f531eb897c4da6,
    0xfc4da62f531eb897,
    0x697c4da62f531eb8,
    0x27c4da62f531eb89,
    0xe62f531eb897c4da,
    0xa897c4da62f531eb,
    0x54da62f531eb897c,
    0x1a62f531eb897c4d,
    0xdb897c4da62f531e,
    0x9531eb897c4da62f,
    0x0000000000000000,
    0x5761761761761761,
    0xaec2ec2ec2ec2ec2,
    0xf9a39a39a39a39a3,
    0x7fb4fb4fb4fb4fb4,
    0x28d58d58d58d58d5,
    0xd176176176176176,
    0x8617617617617617,
    0xed58d58d58d58d58,
    0xba39a39a39a39a39,
    0x439a39a39a39a39a,
    0x14fb4fb4fb4fb4fb,
    0x92ec2ec2ec2ec2ec,
    0xc58d58d58d58d58d,
    0x3c2ec2ec2ec2ec2e,
    0x6b4fb4fb4fb4fb4f,
    0x0000000000000000,
    0x6a8fc1a8fc1a8fc1,
    0xc73db273db273db2,
    0xadb273db273db273,
    0xbe6954e6954e6954,
    0xd4e6954e6954e695,
    0x7954e6954e6954e6,
    0x13db273db273db27,
    0x5fc1a8fc1a8fc1a8,
    0x354e6954e6954e69,
    0x98fc1a8fc1a8fc1a,
    0xf273db273db273db,
    0xe1a8fc1a8fc1a8fc,
    0x8b273db273db273d,
    0x26954e6954e6954e,
    0x4c1a8fc1a8fc1a8f,
    0x0000000000000000,
    0x752a478e3f6dc9b1,
    0xea478e3f6dc9b152,
    0x9f6dc9b152a478e3,
    0xf78e3f6dc9b152a4,
    0x82a478e3f6dc9b15,
    0x1dc9b152a478e3f6,
    0x68e3f6dc9b152a47,
    0xde3f6dc9b152a478,
    0xab152a478e3f6dc9,
    0x3478e3f6dc9b152a,
    0x4152a478e3f6dc9b,
    0x29b152a478e3f6dc,
    0x5c9b152a478e3f6d,
    0xc3f6dc9b152a478e,
    0xb6dc9b152a478e3f,
    0x0000000000000000,
    0x8b9cd6f3e874a251,
    0x351b9cd6f3e874a2,
    0xbe874a251b9cd6f3,
    0x6a251b9cd6f3e874,
    0xe1b9cd6f3e874a25,
    0x5f3e874a251b9cd6,
    0xd4a251b9cd6f3e87,
    0xc74a251b9cd6f3e8,
    0x4cd6f3e874a251b9,
    0xf251b9cd6f3e874a,
    0x79cd6f3e874a251b,
    0xad6f3e874a251b9c,
    0x26f3e874a251b9cd,
    0x9874a251b9cd6f3e,
    0x13e874a251b9cd6f,
    0x0000000000000000,
    0x9cf8a1cf8a1cf8a1,
    0x1bd372bd372bd372,
    0x872bd372bd372bd3,
    0x2596e4596e4596e4,
    0xb96e4596e4596e45,
    0x3e4596e4596e4596,
    0xa2bd372bd372bd37,
    0x4a1cf8a1cf8a1cf8,
    0xd6e4596e4596e459,
    0x51cf8a1cf8a1cf8a,
    0xcd372bd372bd372b,
    0x6f8a1cf8a1cf8a1c,
    0xf372bd372bd372bd,
    0x74596e4596e4596e,
    0xe8a1cf8a1cf8a1cf,
    0x0000000000000000,
    0xa671671671671671,
    0x7ce2ce2ce2ce2ce2,
    0xda93a93a93a93a93,
    0xebf4bf4bf4bf4bf4,
    0x4d85d85d85d85d85,
    0x9716716716716716,
    0x3167167167167167,
    0xf5d85d85d85d85d8,
    0x53a93a93a93a93a9,
    0x893a93a93a93a93a,
    0x2f4bf4bf4bf4bf4b,
    0x1e2ce2ce2ce2ce2c,
    0xb85d85d85d85d85d,
    0x62ce2ce2ce2ce2ce,
    0xc4bf4bf4bf4bf4bf,
    0x0000000000000000,
    0xb35f26ad4c798be1,
    0x56ad4c798be135f2,
    0xe5f26ad4c798be13,
    0xac798be135f26ad4,
    0x1f26ad4c798be135,
    0xfad4c798be135f26,
    0x498be135f26ad4c7,
    0x7be135f26ad4c798,
    0xc8be135f26ad4c79,
    0x2d4c798be135f26a,
    0x9e135f26ad4c798b,
    0xd798be135f26ad4c,
    0x64c798be135f26ad,
    0x8135f26ad4c798be,
    0x326ad4c798be135f,
    0x0000000000000000,
    0xc8caf18caf18caf1,
    0xb3b7d23b7d23b7d2,
    0x7b7d23b7d23b7d23,
    0x565e9465e9465e94,
    0x9e9465e9465e9465,
    0xe5e9465e9465e946,
    0x2d23b7d23b7d23b7,
    0xacaf18caf18caf18,
    0x6465e9465e9465e9,
    0x1f18caf18caf18ca,
    0xd7d23b7d23b7d23b,
    0xfaf18caf18caf18c,
    0x323b7d23b7d23b7d,
    0x49465e9465e9465e,
    0x818caf18caf18caf,
    0x0000000000000000,
    0xd43c57f9286baed1,
    0x986baed143c57f92,
    0x4c57f9286baed143,
    0x13c57f9286baed14,
    0xc7f9286baed143c5,
    0x8baed143c57f9286,
    0x5f9286baed143c57,
    0x26baed143c57f928,
    0xf286baed143c57f9,
    0xbed143c57f9286ba,
    0x6aed143c57f9286b,
    0x357f9286baed143c,
    0xe143c57f9286baed,
    0xad143c57f9286bae,
    0x79286baed143c57f,
    0x0000000000000000,
    0xe24836cb5a7efd91,
    0xf4836cb5a7efd912,
    0x16cb5a7efd912483,
    0xd836cb5a7efd9124,
    0x3a7efd9124836cb5,
    0x2cb5a7efd9124836,
    0xcefd9124836cb5a7,
    0x936cb5a7efd91248,
    0x7124836cb5a7efd9,
    0x67efd9124836cb5a,
    0x85a7efd9124836cb,
    0x4b5a7efd9124836c,
    0xa9124836cb5a7efd,
    0xbfd9124836cb5a7e,
    0x5d9124836cb5a7ef,
    0x0000000000000000,
    0xf111111100000011,
    0xd222222200000011,
    0x2333333300000021,
    0x9444444400000011,
    0x6555555500000021,
    0x4666666600000021,
    0xb777777700000031,
    0x1888888800000011,
    0xe999999900000021,
    0xcaaaaaaa00000021,
    0x3bbbbbbb00000031,
    0x8ccccccc00000021,
    0x7ddddddd00000031,
    0x5eeeeeee00000031,
    0xafffffff00000041,
];

// The table that every step reads.
fn table() -> &'static [u64; 256]
    ensures { Table result.now }
{
    &TABLE
}

// The field's product, from the table. Each factor is made wide by itself, so that products by one factor find its row once.
pub fn times(a: u8, b: u8) -> u8
    requires a_bound { a < 16 }
    requires b_bound { b < 16 }
    ensures value { result ≡ product a b }
    ensures upper_bound { result < 16 }
{
    let at = 16 * usize::from(a) + usize::from(b);
    (table()[at] >> 60) as u8
}

// Both counts of the error in the low four bits of v, from the table: one number, so that one sum counts semi-octets and bits.
pub fn both_counts(v: u8) -> u32
    ensures value { result ≡ both_of (v % 16) }
    ensures upper_bound { result ≤ 65 }
{
    let at = usize::from(240 + v % 16);
    (table()[at] % 4294967296) as u32
}

// x times 2^(a j) for each j, packed.
pub fn row(a: usize, x: u8) -> u64
    requires a_bound { a < 15 }
    requires x_bound { x < 16 }
    ensures { Row a x result }
{
    table()[16 * a + usize::from(x)]
}

// The word's values at 2^0 .. 2^14, packed: its syndromes are those at 2^1 .. 2^(2 t).
pub fn syndromes(word: &[u8]) -> u64
    requires semi_octets { SemiOctets word.now }
    requires word_len_bound { length word.now ≤ 15 }
    ensures { Syndromes word.now result }
{
    let mut s: u64 = 0;
    for (i, c) in word.iter().enumerate() {
        s = s ^ row(i, *c);
    }
    s
}

// Syndrome j: digit j of the packed word.
pub fn syndrome(s: u64, j: u8) -> u8
    requires { j < 16 }
    ensures value { result ≡ nibble j s }
    ensures upper_bound { result < 16 }
{
    ((s >> (4 * j)) % 16) as u8
}

// The weight of the first digit past the 2 t syndromes, once they are the lowest.
fn window(most: u8) -> u64
    requires le_most { 1 ≤ most }
    requires most_bound { most ≤ 3 }
    ensures { result ≡ 16 ^ (most + most) }
{
    match most {
        1 => 256,
        2 => 65536,
        _ => 16777216,
    }
}

// Whether the 2 t syndromes are 0.
pub fn clear(s: u64, most: u8) -> bool
    requires le_most { 1 ≤ most }
    requires most_bound { most ≤ 3 }
    ensures { Decides (Clear (most + most) s) result }
{
    s / 16 % window(most) == 0
}
