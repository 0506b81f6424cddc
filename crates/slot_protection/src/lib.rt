// A frame protected in a slot (A.1.5): the data put in order, and the words to their places. `protect` is total, leaves exactly the slot
// that specs/ of `slot_laws` makes, or refuses with 1 or 2 (specs/Protect.antt).
// Inner: `slot` stands over it and hands `protect` on to callers. It asks nothing.
#![tactic(auto)]

ghost use Rattle.slot_laws.specs.Sizes.{Settings};
ghost use Rattle.refusals.specs.Numbers.{number_of};
ghost use Rattle.slot_protection.specs.Protect.{Protects};

use refusals::Refusal;

// Annex A's slot of a frame and a request.
pub fn protect(
    size: usize,
    mode: u32,
    request: u32,
    frame: &[u8],
    slot: &mut [u8],
) -> Result<(), Refusal>
    ensures { Protects size mode request frame.now slot.old slot.new (number_of result) }
{
    match (size, mode, request) {
        (40..=400, 2..=4, 0..=3) => protect_sized(size, mode as usize, request, frame, slot),
        _ => Err(Refusal::Setting),
    }
}

fn protect_sized(
    size: usize,
    mode: usize,
    request: u32,
    frame: &[u8],
    slot: &mut [u8],
) -> Result<(), Refusal>
    requires { Settings size mode request }
    ensures { Protects size mode request frame.now slot.old slot.new (number_of result) }
{
    if frame.len() != slot_sizes::frame_bytes(size, mode) {
        return Err(Refusal::Length);
    }
    if slot.len() != size {
        return Err(Refusal::Length);
    }
    let e = slot_sizes::data_size(size, mode);
    let mut message = [0u8; 800];
    slot_ordering::arrange(size, mode, request, frame, &mut message[..e]);
    slot_interleaving::write_slot(size, mode, &message[..e], slot);
    Ok(())
}
