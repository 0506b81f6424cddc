// The data of a received slot, every word corrected (A.53 to A.55): a clean slot is told first; else its words are taken from their places,
// corrected, and their data put in order. `clean` and `correct` work in room that is lent, for one slot or for many; `correct_slot` makes
// it for one.
// Inner: `slot` and `slot_judging` stand over it. It asks for a size and a mode in range and for rooms of their length.
#![tactic(auto)]

ghost use Rattle.std.specs.Prelude.{◌≡◌, true, ◌*◌, length};
ghost use Rattle.slot_laws.specs.Sizes.{words};
ghost use Rattle.slot_laws.specs.Order.{Data};
ghost use Rattle.slot_interleaving.specs.Inner.{SlotAndData};
ghost use Rattle.slot_clean.specs.Inner.{unpacked, SemiOctetsOf};
ghost use Rattle.slot_gathering.specs.Inner.{Rooms};
ghost use Rattle.slot_repair.specs.Inner.{MendedTo, IsRepair, IsRepairFrom};

pub use slot_gathering::Outcome;

// Whether the slot is clean: its data are then in order. Its semi-octets stand at their places, clean or not.
pub fn clean(size: usize, mode: usize, slot: &[u8], places: &mut [u8], message: &mut [u8]) -> bool
    requires slot_and_data { SlotAndData size mode slot.now message.old }
    requires places_len { length places.old ≡ 2 * size }
    ensures places_after { places.new ≡ unpacked slot.now }
    ensures fact { Data size mode message.new }
    ensures mended_to { result ≡ true → MendedTo size mode slot.now message.new (words size) 0 0 }
{
    slot_clean::unpack(slot, places);
    slot_clean::read_clean(size, mode, places, message)
}

// Every word corrected, with room for the words and for the counts of each.
pub fn correct(
    size: usize,
    mode: usize,
    places: &[u8],
    all: &mut [u8],
    counts: &mut [u8],
    bits: &mut [u8],
    message: &mut [u8],
) -> Option<Outcome>
    requires semi_octets_of { SemiOctetsOf size mode places.now }
    requires rooms { Rooms size mode counts.old bits.old message.old }
    requires all_len { length all.old ≡ 2 * size }
    ensures repair_from { IsRepairFrom size mode places.now message.new result }
    ensures fact { Data size mode message.new }
{
    slot_gathering::receive_all(size, mode, places, all);
    let count = counts.len();
    let long = slot_sizes::word_length(size, count, count - 1);
    let over = 2 * size - count * long;
    code_word_corrector::correct_words(all, long, over, (mode - 1) as u8, counts, bits);
    slot_gathering::gather(size, mode, all, counts, bits, message)
}

// Every word corrected.
fn repair(size: usize, mode: usize, places: &[u8], message: &mut [u8]) -> Option<Outcome>
    requires semi_octets_of { SemiOctetsOf size mode places.now }
    requires fact { Data size mode message.old }
    ensures { IsRepairFrom size mode places.now message.new result }
{
    let count = slot_sizes::word_count(size);
    let mut all = [0u8; 800];
    let mut counts = [0u8; 54];
    let mut bits = [0u8; 54];
    correct(
        size,
        mode,
        places,
        &mut all[..2 * size],
        &mut counts[..count],
        &mut bits[..count],
        message,
    )
}

// The data of the slot, with every word corrected.
pub fn correct_slot(size: usize, mode: usize, slot: &[u8], message: &mut [u8]) -> Option<Outcome>
    requires { SlotAndData size mode slot.now message.old }
    ensures { IsRepair size mode slot.now message.new result }
{
    let mut places = [0u8; 800];
    if clean(size, mode, slot, &mut places[..2 * size], message) {
        return Some(Outcome { count: 0, bits: 0 });
    }
    repair(size, mode, &places[..2 * size], message)
}
