// The cleared room for the slots of a batch, made once and lent to all of them.
// Inner: `slot_batch` stands over it. It asks for a size and a mode in range and for buffers that fit.
#![tactic(auto)]

ghost use Rattle.std.specs.Prelude.{length};
ghost use Rattle.slot_laws.specs.Sizes.{InRange};
ghost use Rattle.slot_each.specs.Each.{five, Fits};
ghost use Rattle.slot_each.specs.Inner.{EachTo};

// Every slot's answer and frame: the room is made here, once.
pub fn unprotect_fitting(
    size: usize,
    mode: usize,
    slots: &[u8],
    numbers: &mut [u8],
    requests: &mut [u8],
    counts: &mut [u16],
    bits: &mut [u16],
    frames: &mut [u8],
)
    requires in_range { InRange size mode }
    requires fits { Fits size mode slots.now (five numbers.old requests.old counts.old bits.old frames.old) }
    ensures { EachTo size mode (length numbers.old) slots.now
        (five numbers.old requests.old counts.old bits.old frames.old)
        (five numbers.new requests.new counts.new bits.new frames.new) }
{
    let count = slot_sizes::word_count(size);
    let e = slot_sizes::data_size(size, mode);
    let mut places = [0u8; 800];
    let mut all = [0u8; 800];
    let mut changes = [0u8; 54];
    let mut ones = [0u8; 54];
    let mut message = [0u8; 800];
    slot_each::each(
        size,
        mode,
        slots,
        &mut places[..2 * size],
        &mut all[..2 * size],
        &mut changes[..count],
        &mut ones[..count],
        &mut message[..e],
        numbers,
        requests,
        counts,
        bits,
        frames,
    );
}
