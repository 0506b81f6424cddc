// What the sender and the air do with a frame: the slot that is chosen for it, and the semi-octets that are changed on the way.
// The rules go by the place of the frame in the sample, so that every run is the same.
ghost use Rattle.std.specs.Prelude.{◌≤◌};
ghost use Rattle.day_sample.specs.Air.{Fitting};

// A slot that carries exactly a frame's bytes: its size and its mode.
#[derive(Clone, Copy)]
pub struct Fit {
    pub size: usize,
    pub mode: u32,
}

// What happens to a slot on the way: nothing, a few changes, as many in each word as can be repaired, or one more in each word.
#[derive(Clone, Copy)]
pub enum Weather {
    Clear,
    Few,
    Most,
    Beyond,
}

// The smallest slot that carries exactly n bytes, in the strongest of its modes that does.
pub fn smallest(n: usize) -> Option<Fit>
    ensures { Fitting result }
{
    for size in 40..=400 {
        if let Some(mode) = strongest(size, n) {
            return Some(Fit { size, mode });
        }
    }
    None
}

// The strongest mode in which a slot of this size carries exactly n bytes.
fn strongest(size: usize, n: usize) -> Option<u32> {
    (2..=4)
        .rev()
        .find(|mode| slot_sizes::frame_size(size, *mode) == n)
}

// The request that goes with a frame.
pub fn request_at(place: usize) -> u32 {
    (place % 4) as u32
}

// What happens on the way.
pub fn weather_at(place: usize) -> Weather {
    match place / 4 % 4 {
        0 => Weather::Clear,
        1 => Weather::Few,
        2 => Weather::Most,
        _ => Weather::Beyond,
    }
}

// As many changes as can be repaired if each word has m - 1 of them.
fn repairable(words: usize, mode: u32) -> usize
    requires { words ≤ 54 }
    ensures { result ≤ 162 }
{
    match mode {
        2 => words,
        3 => 2 * words,
        _ => 3 * words,
    }
}

// How many semi-octets of the slot are changed.
pub fn changes_at(place: usize, size: usize, mode: u32) -> usize
    requires { size ≤ 400 }
    ensures { result ≤ 216 }
{
    let words = slot_sizes::word_count(size);
    let most = repairable(words, mode);
    match weather_at(place) {
        Weather::Clear => 0,
        Weather::Few => 1 + place % 5,
        Weather::Most => most,
        Weather::Beyond => most + words,
    }
}

// Changes the first n semi-octets. Neighbours belong to different words, so that n = t x words are t in each word.
pub fn change(slot: &mut [u8], n: usize, place: usize) {
    for p in 0..n {
        let at = p / 2;
        if slot.len() <= at {
            return;
        }
        slot[at] = slot[at] ^ pattern(p, place);
    }
}

// How many bits the first n changes change. The bound is that of `changes_at`, so that the sum fits.
pub fn bits_changed(n: usize, place: usize) -> usize
    requires { n ≤ 216 }
{
    let mut bits: usize = 0;
    for p in 0..n {
        bits = bits + pattern(p, place).count_ones() as usize;
    }
    bits
}

// A byte with a semi-octet from 1 to 15 in the half that place p of the slot has in its byte.
fn pattern(p: usize, place: usize) -> u8 {
    let v = 1 + (p % 15 + place % 15) % 15;
    if p % 2 == 0 { v as u8 } else { (16 * v) as u8 }
}
