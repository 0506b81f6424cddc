// One slot unprotected in the room that is lent: nothing is made anew for it.
// Inner: `slot_each` stands over it. It asks for a size and a mode in range, for a slot and a frame of their length and for room.
#![tactic(auto)]

ghost use Rattle.std.specs.Prelude.{◌≡◌, length};
ghost use Rattle.slot_laws.specs.Sizes.{frame_size};
ghost use Rattle.slot_laws.specs.Order.{Data};
ghost use Rattle.slot_answers.specs.Answers.{told_of};
ghost use Rattle.slot_repair.specs.Inner.{IsRepair};
ghost use Rattle.slot.specs.Unprotect.{Unprotects};
ghost use Rattle.slot_judging.specs.Inner.{Lent};

use refusals::Refusal;
use slot_answers::Reception;
use slot_repair::Outcome;

// The data of the slot, with every word corrected.
fn correct_in(
    size: usize,
    mode: usize,
    slot: &[u8],
    places: &mut [u8],
    all: &mut [u8],
    changes: &mut [u8],
    ones: &mut [u8],
    message: &mut [u8],
) -> Option<Outcome>
    requires lent { Lent size mode places.old all.old changes.old ones.old message.old }
    requires slot_len { length slot.now ≡ size }
    ensures repair { IsRepair size mode slot.now message.new result }
    ensures fact { Data size mode message.new }
{
    if slot_repair::clean(size, mode, slot, places, message) {
        return Some(Outcome { count: 0, bits: 0 });
    }
    slot_repair::correct(size, mode, places, all, changes, ones, message)
}

// The answer for one slot, and its frame.
pub fn judge(
    size: usize,
    mode: usize,
    slot: &[u8],
    places: &mut [u8],
    all: &mut [u8],
    changes: &mut [u8],
    ones: &mut [u8],
    message: &mut [u8],
    frame: &mut [u8],
) -> Result<Reception, Refusal>
    requires lent { Lent size mode places.old all.old changes.old ones.old message.old }
    requires slot_len { length slot.now ≡ size }
    requires frame_len { length frame.old ≡ frame_size size mode }
    ensures unprotects { Unprotects size mode slot.now frame.old frame.new (told_of result) }
    ensures fact { Data size mode message.new }
{
    let found = correct_in(size, mode, slot, places, all, changes, ones, message);
    let Outcome { count, bits } = found.ok_or(Refusal::Beyond)?;
    slot_delivery::answer(size, mode, count, bits, message, frame)
}
