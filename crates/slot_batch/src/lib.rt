// Many slots of one size and mode at once: the room that unprotecting needs is made once for all of them.
// Promised for every input: for each slot the four entries and the frame's place hold what `slot::unprotect` gives for that slot alone, by
// the same definition, whatever the slots beside it are; or 1 or 2, and nothing is done. specs/Each.antt of `slot_each` says it.
#![tactic(auto)]

ghost use Rattle.std.specs.Prelude.{◌≡◌};
ghost use Rattle.refusals.specs.Numbers.{number_of};
ghost use Rattle.laws.specs.Decides.{Decides};
ghost use Rattle.slot_laws.specs.Sizes.{InRange};
ghost use Rattle.slot_each.specs.Each.{five, Fitting, UnprotectsEach};

pub use refusals::Refusal;

// Whether the six lengths fit.
fn fits(
    size: usize,
    mode: usize,
    slots: usize,
    numbers: usize,
    requests: usize,
    counts: usize,
    bits: usize,
    frames: usize,
) -> bool
    requires { InRange size mode }
    ensures { Decides (Fitting size mode slots numbers requests counts bits frames) result }
{
    slots / size == numbers
        && frames == numbers * slot_sizes::frame_bytes(size, mode)
        && slots % size == 0
        && requests == numbers
        && counts == numbers
        && bits == numbers
}

fn unprotect_sized(
    size: usize,
    mode: usize,
    slots: &[u8],
    numbers: &mut [u8],
    requests: &mut [u8],
    counts: &mut [u16],
    bits: &mut [u16],
    frames: &mut [u8],
) -> Result<(), Refusal>
    requires { InRange size mode }
    ensures { UnprotectsEach size mode slots.now
        (five numbers.old requests.old counts.old bits.old frames.old)
        (five numbers.new requests.new counts.new bits.new frames.new)
        (number_of result) }
{
    if !fits(
        size,
        mode,
        slots.len(),
        numbers.len(),
        requests.len(),
        counts.len(),
        bits.len(),
        frames.len(),
    ) {
        return Err(Refusal::Length);
    }
    slot_room::unprotect_fitting(size, mode, slots, numbers, requests, counts, bits, frames);
    Ok(())
}

// Whole slots of one size and mode: for each of them its number, its request and its counts in a buffer each, and its frame in its place.
pub fn unprotect_each(
    size: usize,
    mode: u32,
    slots: &[u8],
    numbers: &mut [u8],
    requests: &mut [u8],
    counts: &mut [u16],
    bits: &mut [u16],
    frames: &mut [u8],
) -> Result<(), Refusal>
    ensures { UnprotectsEach size mode slots.now
        (five numbers.old requests.old counts.old bits.old frames.old)
        (five numbers.new requests.new counts.new bits.new frames.new)
        (number_of result) }
{
    match (size, mode) {
        (40..=400, 2..=4) => {
            unprotect_sized(
                size,
                mode as usize,
                slots,
                numbers,
                requests,
                counts,
                bits,
                frames,
            )
        }
        _ => Err(Refusal::Setting),
    }
}
