// The words of a received slot taken from their places, signature undone (A.53 to A.55), and the data of corrected words put in order with
// their counts summed. Inner: `slot_repair` stands over it. It asks for a size and a mode in range and for rooms of their length.
#![tactic(auto)]

ghost use Rattle.std.specs.Prelude.{◌≡◌, ◌*◌, length};
ghost use Rattle.slot_laws.specs.Sizes.{word_length};
ghost use Rattle.slot_laws.specs.Order.{Data};
ghost use Rattle.slot_interleaving.specs.Inner.{AtWord};
ghost use Rattle.slot_clean.specs.Inner.{word_from, SemiOctetsOf};
ghost use Rattle.slot_gathering.specs.Inner.{Rooms, AllArrived, IsGathered};

// The counts of the changed semi-octets and of the changed bits of a slot whose words were all corrected.
#[derive(Clone, Copy)]
pub struct Outcome {
    pub count: u16,
    pub bits: u16,
}

// Word i as received.
fn receive(size: usize, i: usize, mode: usize, places: &[u8], row: &[u8], w: &mut [u8])
    requires at_word { AtWord size mode i (2 * size) row.now places.now }
    requires w_len { length w.old ≡ word_length size i }
    ensures { w.new ≡ word_from size mode places.now i }
{
    let count = slot_sizes::word_count(size);
    for (k, x) in w.iter_mut().enumerate() {
        *x = places[slot_interleaving::place(size, count, i, k)] ^ row[k];
    }
}

// The words as received, one after the other.
pub fn receive_all(size: usize, mode: usize, places: &[u8], all: &mut [u8])
    requires semi_octets_of { SemiOctetsOf size mode places.now }
    requires all_len { length all.old ≡ 2 * size }
    ensures { AllArrived size mode places.now all.new }
{
    let count = slot_sizes::word_count(size);
    let mut at: usize = 0;
    for i in 0..count {
        let e = at + slot_sizes::word_length(size, count, i);
        let row = slot_interleaving::signature_row(mode, i);
        receive(size, i, mode, places, &row, &mut all[at..e]);
        at = e;
    }
}

// The data of every word put where they belong, and the counts added; or nothing, where a word has no count.
pub fn gather(
    size: usize,
    mode: usize,
    all: &[u8],
    counts: &[u8],
    bits: &[u8],
    message: &mut [u8],
) -> Option<Outcome>
    requires semi_octets_of { SemiOctetsOf size mode all.now }
    requires rooms { Rooms size mode counts.now bits.now message.old }
    ensures gathered { IsGathered size mode all.now counts.now bits.now message.new result }
    ensures fact { Data size mode message.new }
{
    let checks = code_word_settings::distance(mode) - 1;
    let mut from: usize = 0;
    let mut at: usize = 0;
    let mut sum: u16 = 0;
    let mut bit_sum: u16 = 0;
    for (i, n) in counts.iter().enumerate() {
        if mode <= usize::from(*n) {
            return None;
        }
        let long = slot_sizes::word_length(size, counts.len(), i);
        let e = at + (long - checks);
        copying::copy(&mut message[at..e], &all[from + checks..from + long]);
        sum += u16::from(*n);
        bit_sum += u16::from(bits[i]);
        from += long;
        at = e;
    }
    Some(Outcome {
        count: sum,
        bits: bit_sum,
    })
}
