// The sizes of a slot's parts (A.7 to A.15): each function equals its definition in specs/Sizes.antt of `slot_laws`.
// Inner: the crates of `slot` and `day_sample` stand over it. It asks for a size and a mode in range; `frame_size`, which `slot` hands on
// to callers, asks nothing.
#![tactic(auto)]

ghost use Rattle.std.specs.Prelude.{◌≡◌, ◌+◌, ◌*◌, ◌≤◌, ◌<◌};
ghost use Rattle.slot_laws.specs.Sizes.{InRange, words, word_length, conceal_words, conceal};
ghost use Rattle.slot_laws.specs.Sizes.{hash1, hash2, frame_size, IsHeadingSize, IsDataSize, IsFrameSize};

// The number of code words (A.7).
pub fn word_count(size: usize) -> usize
    requires { size ≤ 400 }
    ensures value { result ≡ words size }
    ensures upper_bound { result ≤ 54 }
{
    (2 * size + 14) / 15
}

// The semi-octets of word i of so many (A.8): 13, 14 or 15, so that no division is needed.
pub fn word_length(size: usize, count: usize, i: usize) -> usize
    requires le_size { 40 ≤ size }
    requires size_bound { size ≤ 400 }
    requires count_value { count ≡ words size }
    requires i_bound { i < words size }
    ensures value { result ≡ word_length size i }
    ensures lower_bound { 13 ≤ result }
    ensures upper_bound { result ≤ 15 }
{
    let end = 2 * size - i;
    if end <= 13 * count {
        return 13;
    }
    if end <= 14 * count {
        return 14;
    }
    15
}

// The bytes of the first hash with the request (A.13).
pub fn first_hash_size(size: usize) -> usize
    ensures value { result ≡ hash1 size }
    ensures lower_bound { 2 ≤ result }
    ensures upper_bound { result ≤ 3 }
{
    match size {
        40 => 2,
        _ => 3,
    }
}

// The bytes of the second hash (A.14).
pub fn second_hash_size(size: usize, mode: usize) -> usize
    ensures value { result ≡ hash2 size mode }
    ensures upper_bound { result ≤ 2 }
{
    if size < 80 {
        return 0;
    }
    if mode < 3 {
        return 0;
    }
    2
}

// A.11 in smaller whole numbers, which give the same from 80 to 400.
pub fn conceal_count(size: usize, mode: usize) -> usize
    requires { InRange size mode }
    ensures value { result ≡ conceal_words size mode }
    ensures upper_bound { result ≤ words size }
{
    if size < 80 {
        return 0;
    }
    match mode {
        3 => (539 * size - 8650) / 6700,
        4 => (4455 * size - 98500) / 67000,
        _ => 0,
    }
}

// The data semi-octets of the last words.
pub fn conceal_size(size: usize, mode: usize) -> usize
    requires { InRange size mode }
    ensures value { result ≡ conceal size mode }
    ensures upper_bound { result ≤ 2 * frame_size size mode }
{
    let count = word_count(size);
    let n = conceal_count(size, mode);
    let checks = code_word_settings::distance(mode) - 1;
    let mut sum = 0;
    for k in 0..n {
        sum += word_length(size, count, count - 1 - k) - checks;
    }
    sum
}

// The bytes of the frame (A.15).
pub fn frame_bytes(size: usize, mode: usize) -> usize
    requires { InRange size mode }
    ensures value { result ≡ frame_size size mode }
    ensures upper_bound { result ≤ 400 }
{
    size - first_hash_size(size) - second_hash_size(size, mode) - word_count(size) * (mode - 1)
}

// The semi-octets of the heading: first hash, request and second hash.
pub fn heading_size(size: usize, mode: usize) -> usize
    ensures { IsHeadingSize size mode result }
{
    2 * first_hash_size(size) + 2 * second_hash_size(size, mode)
}

// The semi-octets of a slot's data: heading and frame.
pub fn data_size(size: usize, mode: usize) -> usize
    requires { InRange size mode }
    ensures { IsDataSize size mode result }
{
    heading_size(size, mode) + 2 * frame_bytes(size, mode)
}

// The bytes of a frame in a slot of this size; 0 where a setting is out of range.
pub fn frame_size(size: usize, mode: u32) -> usize
    ensures { IsFrameSize size mode result }
{
    match size {
        40..=400 => match mode {
            2..=4 => frame_bytes(size, mode as usize),
            _ => 0,
        },
        _ => 0,
    }
}
