// A received slot unpacked, and told where it is clean (A.53 to A.55): its data put in order as they came, where every word's check
// semi-octets are those of its data. Inner: `slot_gathering` and `slot_repair` stand over it. It asks for a size and a mode in range and
// for rooms of their length.
#![tactic(auto)]

ghost use Rattle.std.specs.Prelude.{◌≡◌, true, ◌-◌, ◌*◌, ◌≤◌, length};
ghost use Rattle.laws.specs.Tab.{Below};
ghost use Rattle.code_word_laws.specs.Word.{distance};
ghost use Rattle.code_word_laws.specs.Checks.{check_rows};
ghost use Rattle.slot_laws.specs.Sizes.{words, data_length};
ghost use Rattle.slot_laws.specs.Order.{Data};
ghost use Rattle.slot_interleaving.specs.Inner.{AtWord, WithRows};
ghost use Rattle.slot_clean.specs.Inner.{unpacked, data_from, SemiOctetsOf, ChecksSummed, ChecksAre, CleanOver, AllClean};

// The semi-octets of the slot, each at its place (A.52).
pub fn unpack(slot: &[u8], places: &mut [u8])
    requires slot_len_bound { length slot.now ≤ 400 }
    requires places_len { length places.old ≡ 2 * length slot.now }
    ensures { places.new ≡ unpacked slot.now }
{
    for (j, &b) in slot.iter().enumerate() {
        places[2 * j] = b % 16;
        places[2 * j + 1] = b / 16;
    }
}

// The data of word i as received, and what their check semi-octets come to, packed.
fn receive_data(
    size: usize,
    i: usize,
    mode: usize,
    places: &[u8],
    row: &[u8],
    rows: &[u32; 208],
    w: &mut [u8],
) -> u32
    requires at_word { AtWord size mode i (2 * size) row.now places.now }
    requires w_len { length w.old ≡ data_length size mode i }
    ensures w_after { w.new ≡ data_from size mode places.now i }
    ensures checks_summed { ChecksSummed size mode places.now i rows.now result }
{
    let count = slot_sizes::word_count(size);
    let checks = code_word_settings::distance(mode) - 1;
    let mut r = 0;
    for (k, x) in w.iter_mut().enumerate() {
        let c = places[slot_interleaving::place(size, count, i, checks + k)] ^ row[checks + k];
        *x = c;
        r = code_word::with_data(rows, k, c, r);
    }
    r
}

// Whether the check semi-octets of word i as received are those packed in r, the last in the lowest digit.
// No promise where not: the slot is then corrected word by word.
fn same_checks(size: usize, i: usize, mode: usize, places: &[u8], row: &[u8], r: u32) -> bool
    requires { AtWord size mode i (2 * size) row.now places.now }
    ensures { result ≡ true → ChecksAre size mode places.now i r }
{
    let count = slot_sizes::word_count(size);
    let mut bits = 0;
    let mut rest = r;
    for k in (0..code_word_settings::distance(mode) - 1).rev() {
        let c = places[slot_interleaving::place(size, count, i, k)] ^ row[k];
        bits |= c ^ (rest % 16) as u8;
        rest /= 16;
    }
    bits == 0
}

// The data of word i as received, and whether the word is the code word over them.
fn read_clean_word(
    size: usize,
    mode: usize,
    i: usize,
    places: &[u8],
    rows: &[u32; 208],
    w: &mut [u8],
) -> bool
    requires with_rows { WithRows size mode i (2 * size) w.old rows.now places.now }
    requires below { Below 16 places.now }
    ensures w_after { w.new ≡ data_from size mode places.now i }
    ensures clean_over { result ≡ true → CleanOver size mode places.now i w.new }
{
    let added = slot_interleaving::signature_row(mode, i);
    let r = receive_data(size, i, mode, places, &added, rows, w);
    same_checks(size, i, mode, places, &added, r)
}

// Whether every word as received is the code word over its data: then these stand in order, and there is nothing to correct.
pub fn read_clean(size: usize, mode: usize, places: &[u8], message: &mut [u8]) -> bool
    requires semi_octets_of { SemiOctetsOf size mode places.now }
    requires fact { Data size mode message.old }
    ensures fact_2 { Data size mode message.new }
    ensures all_clean { result ≡ true → AllClean size mode places.now message.new (words size) }
{
    let count = slot_sizes::word_count(size);
    let checks = code_word_settings::distance(mode) - 1;
    let rows = code_word::check_rows(mode as u32);
    let mut at = 0;
    for i in 0..count {
        let e = at + (slot_sizes::word_length(size, count, i) - checks);
        if !read_clean_word(size, mode, i, places, rows, &mut message[at..e]) {
            return false;
        }
        at = e;
    }
    true
}
