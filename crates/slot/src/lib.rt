// One slot of Annex A.1 over the code words (crate `code_word`): protecting a frame, and unprotecting what was received, the mode told.
// Promised for every input: `protect` leaves exactly the slot that specs/ of `slot_laws` makes step by step in the annex's order, or
// refuses with 1 or 2; `unprotect` answers by document 01's rule, which leaves no choice, and writes the frame on 0 alone; `carry` is
// demand 3 of the two.
#![tactic(auto)]

ghost use Rattle.slot_laws.specs.Sizes.{InRange};
ghost use Rattle.slot_answers.specs.Answers.{told_of};
ghost use Rattle.slot.specs.Unprotect.{Unprotects, Recordable};
ghost use Rattle.slot.specs.Inner.{Judgeable};
ghost use Rattle.slot.specs.Demand.{Sends, Carried};

pub use refusals::Refusal;
pub use slot_answers::Reception;
pub use slot_protection::protect;
use slot_repair::Outcome;
pub use slot_sizes::frame_size;

// What was received, by document 01's rule, the mode told.
pub fn unprotect(
    size: usize,
    mode: u32,
    slot: &[u8],
    frame: &mut [u8],
) -> Result<Reception, Refusal>
    ensures unprotects { Unprotects size mode slot.now frame.old frame.new (told_of result) }
    ensures recordable { Recordable (told_of result) frame.new }
{
    match (size, mode) {
        (40..=400, 2..=4) => unprotect_sized(size, mode as usize, slot, frame),
        _ => Err(Refusal::Setting),
    }
}

fn unprotect_sized(
    size: usize,
    mode: usize,
    slot: &[u8],
    frame: &mut [u8],
) -> Result<Reception, Refusal>
    requires { InRange size mode }
    ensures { Unprotects size mode slot.now frame.old frame.new (told_of result) }
{
    if frame.len() != slot_sizes::frame_bytes(size, mode) {
        return Err(Refusal::Length);
    }
    if slot.len() != size {
        return Err(Refusal::Length);
    }
    let e = slot_sizes::data_size(size, mode);
    let mut message = [0u8; 800];
    judge(size, mode, slot, &mut message[..e], frame)
}

// Every word corrected, then the heading compared and the frame written; message is room for the data semi-octets.
fn judge(
    size: usize,
    mode: usize,
    slot: &[u8],
    message: &mut [u8],
    frame: &mut [u8],
) -> Result<Reception, Refusal>
    requires { Judgeable size mode slot.now message.old frame.old }
    ensures { Unprotects size mode slot.now frame.old frame.new (told_of result) }
{
    let Outcome { count, bits } = slot_repair::correct_slot(size, mode, slot, message).ok_or(
        Refusal::Beyond,
    )?;
    slot_delivery::answer(size, mode, count, bits, message, frame)
}

// Demand 3 of the running code: a slot is protected, and whatever was received in its place is unprotected.
pub fn carry(
    size: usize,
    mode: u32,
    request: u32,
    frame: &[u8],
    sent: &mut [u8],
    slot: &[u8],
    out: &mut [u8],
) -> Result<Reception, Refusal>
    ensures sends { Sends size mode request frame.now sent.old sent.new }
    ensures unprotects { Unprotects size mode slot.now out.old out.new (told_of result) }
    ensures carried { Carried size mode request frame.now sent.old sent.new
        slot.now out.old out.new (told_of result) }
{
    let _ = protect(size, mode, request, frame, sent);
    unprotect(size, mode, slot, out)
}
