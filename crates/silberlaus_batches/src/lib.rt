// Unprotecting many slots with document 01's number in place of the `Result`. It stands over `slot_batch`.
// Inner: `silberlaus` stands over it. It asks nothing.
#![tactic(auto)]

ghost use Rattle.slot_each.specs.Each.{five, UnprotectsEach};

// Each slot's number, request and counts, and its frame in its place; or 1 or 2.
pub fn unprotect_each(
    size: usize,
    mode: u32,
    slots: &[u8],
    numbers: &mut [u8],
    requests: &mut [u8],
    counts: &mut [u16],
    bits: &mut [u16],
    frames: &mut [u8],
) -> u8
    ensures { UnprotectsEach size mode slots.now
        (five numbers.old requests.old counts.old bits.old frames.old)
        (five numbers.new requests.new counts.new bits.new frames.new) result }
{
    refusals::numbered(slot_batch::unprotect_each(
        size, mode, slots, numbers, requests, counts, bits, frames,
    ))
}
