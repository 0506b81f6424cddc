// A slot of Annex A.1 under C names: its frame's size, protecting and unprotecting, one slot or many. It stands over
// `silberlaus_sizes`, `silberlaus_slots` and `silberlaus_batches`.
ghost use Rattle.slot_laws.specs.Sizes.{IsFrameSize};
ghost use Rattle.slot_protection.specs.Protect.{Protects};
ghost use Rattle.slot.specs.Unprotect.{Recordable, Unprotects};
ghost use Rattle.slot_each.specs.Each.{five, UnprotectsEach};
ghost use Rattle.silberlaus_slots.specs.Told.{told_of};

use silberlaus_slots::SilberlausUnprotected;

// The bytes of a frame in a slot, 0 where a setting is out of range.
#[unsafe(no_mangle)]
pub extern "C" fn silberlaus_frame_size(size: usize, mode: u32) -> usize
    ensures { IsFrameSize size mode result }
{
    silberlaus_sizes::frame_size(size, mode)
}

// A slot made of a frame and a request, or 1 or 2.
#[unsafe(no_mangle)]
pub extern "C" fn silberlaus_protect(
    size: usize,
    mode: u32,
    request: u32,
    frame: &[u8],
    sent: &mut [u8],
) -> u8
    ensures { Protects size mode request frame.now sent.old sent.new result }
{
    silberlaus_slots::protect(size, mode, request, frame, sent)
}

// The frame, the request and the counts of a received slot, or 1, 2, 3 or 4.
#[unsafe(no_mangle)]
pub extern "C" fn silberlaus_unprotect(
    size: usize,
    mode: u32,
    received: &[u8],
    frame: &mut [u8],
) -> SilberlausUnprotected
    ensures unprotects { Unprotects size mode received.now frame.old frame.new (told_of result) }
    ensures recordable { Recordable (told_of result) frame.new }
{
    silberlaus_slots::unprotect(size, mode, received, frame)
}

// Each slot's number, request and counts, and its frame in its place; or 1 or 2, and nothing is done.
#[unsafe(no_mangle)]
pub extern "C" fn silberlaus_unprotect_each(
    size: usize,
    mode: u32,
    slots: &[u8],
    numbers: &mut [u8],
    requests: &mut [u8],
    counts: &mut [u16],
    bits: &mut [u16],
    frames: &mut [u8],
) -> u8
    ensures { UnprotectsEach size mode slots.now
        (five numbers.old requests.old counts.old bits.old frames.old)
        (five numbers.new requests.new counts.new bits.new frames.new) result }
{
    silberlaus_batches::unprotect_each(size, mode, slots, numbers, requests, counts, bits, frames)
}
