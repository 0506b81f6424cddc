// Words to their places in the slot (A.38, A.46 to A.52): the mode signature, the interleaving, the bytes.
// Inner: the crates of `slot` that receive and write stand over it. It asks for a size and a mode in range and for buffers of their
// length.
#![tactic(auto)]

ghost use Rattle.std.specs.Prelude.{◌≡◌, ℕ, ◌+◌, ◌*◌, ◌≤◌, ◌<◌, length, get_or};
ghost use Rattle.laws.specs.Tab.{Below};
ghost use Rattle.code_word_laws.specs.Checks.{summed};
ghost use Rattle.slot_laws.specs.Sizes.{data_length};
ghost use Rattle.slot_laws.specs.Semi.{pack};
ghost use Rattle.slot_laws.specs.Words.{signature, place_of};
ghost use Rattle.slot_laws.specs.Slot.{slot_with};
ghost use Rattle.slot_interleaving.specs.Inner.{HasPlace, AtWord, WithRows, InPairs, SlotAndData};
ghost use Rattle.slot_interleaving.specs.Inner.{DataSpanned, ChecksSpanned, WordScattered};

// A.47, A.48 and A.49.
const TWO: [u8; 15] = [7, 15, 5, 6, 14, 9, 1, 3, 12, 10, 13, 3, 2, 0, 0];

const THREE: [u8; 15] = [7, 11, 14, 1, 2, 3, 12, 11, 6, 15, 7, 6, 12, 0, 0];

const FOUR: [u8; 15] = [6, 15, 12, 2, 9, 15, 2, 8, 12, 3, 10, 5, 4, 0, 0];

// What the signature adds to word i.
pub fn signature_row(mode: usize, i: usize) -> [u8; 15]
    requires le_mode { 2 ≤ mode }
    requires mode_bound { mode ≤ 4 }
    ensures result_len { length result ≡ 15 }
    ensures by_index { (k : ℕ) → get_or result k 0 ≡ signature mode i k }
{
    if 6 <= i {
        return [0; 15];
    }
    match mode {
        2 => TWO,
        3 => THREE,
        _ => FOUR,
    }
}

// The place in the slot of semi-octet k of word i (A.51).
pub fn place(size: usize, count: usize, i: usize, k: usize) -> usize
    requires { HasPlace size count i k }
    ensures value { result ≡ place_of size i k }
    ensures upper_bound { result < 2 * size }
{
    2 * size - count * k - i - 1
}

// The data of word i, with the signature's row added, to their places; what they add to the check semi-octets is summed up on the way.
fn scatter_data(
    size: usize,
    i: usize,
    mode: usize,
    message: &[u8],
    row: &[u8],
    rows: &[u32; 208],
    places: &mut [u8],
) -> u32
    requires at_word { AtWord size mode i 800 row.now places.old }
    requires message_len { length message.now ≡ data_length size mode i }
    ensures value { result ≡ summed rows.now (λ k. get_or message.now k 0) (length message.now) }
    ensures data_spanned { DataSpanned size mode i message.now (data_length size mode i) places.old places.new }
{
    let count = slot_sizes::word_count(size);
    let checks = code_word_settings::distance(mode) - 1;
    let mut r = 0;
    for (k, &c) in message.iter().enumerate() {
        r = code_word::with_data(rows, k, c, r);
        places[place(size, count, i, checks + k)] = c ^ row[checks + k];
    }
    r
}

// The check semi-octets of word i, with the signature's row added, to their places; the last one is r's lowest digit.
fn scatter_checks(size: usize, i: usize, mode: usize, r: u32, row: &[u8], places: &mut [u8])
    requires { AtWord size mode i 800 row.now places.old }
    ensures { ChecksSpanned size mode i r 0 places.old places.new }
{
    let count = slot_sizes::word_count(size);
    let mut rest = r;
    for k in (0..code_word_settings::distance(mode) - 1).rev() {
        places[place(size, count, i, k)] = (rest % 16) as u8 ^ row[k];
        rest /= 16;
    }
}

// Two places to a byte (A.52).
fn pack_bytes(places: &[u8], slot: &mut [u8])
    requires { InPairs slot.old places.now }
    ensures { slot.new ≡ pack (λ p. get_or places.now p 0) (length slot.old) }
{
    for (j, b) in slot.iter_mut().enumerate() {
        *b = places[2 * j] + 16 * places[2 * j + 1];
    }
}

// Code word i over its data, to its places.
fn place_word(
    size: usize,
    mode: usize,
    i: usize,
    message: &[u8],
    rows: &[u32; 208],
    places: &mut [u8],
)
    requires with_rows { WithRows size mode i 800 message.now rows.now places.old }
    requires below { Below 16 message.now }
    ensures { WordScattered size mode i message.now places.old places.new }
{
    let row = signature_row(mode, i);
    let r = scatter_data(size, i, mode, message, &row, rows, places);
    scatter_checks(size, i, mode, r, &row, places);
}

// The slot with these data.
pub fn write_slot(size: usize, mode: usize, message: &[u8], slot: &mut [u8])
    requires { SlotAndData size mode slot.old message.now }
    ensures { slot.new ≡ slot_with size mode message.now }
{
    let count = slot_sizes::word_count(size);
    let checks = code_word_settings::distance(mode) - 1;
    let rows = code_word::check_rows(mode as u32);
    let mut places = [0u8; 800];
    let mut at = 0;
    for i in 0..count {
        let e = at + (slot_sizes::word_length(size, count, i) - checks);
        place_word(size, mode, i, &message[at..e], rows, &mut places);
        at = e;
    }
    pack_bytes(&places, slot);
}
