// The slots of one size and mode that stand end to end, unprotected one after the other in the same room.
// Inner: `slot_room` stands over it. It asks for a size and a mode in range, for buffers that fit and for room.
#![tactic(auto)]

ghost use Rattle.std.specs.Prelude.{length};
ghost use Rattle.slot_judging.specs.Inner.{Lent};
ghost use Rattle.slot_each.specs.Each.{five, Fits};
ghost use Rattle.slot_each.specs.Inner.{EachTo};

use slot_answers::Reception;

// Every slot's answer and frame, with the room for all of them.
pub fn each(
    size: usize,
    mode: usize,
    slots: &[u8],
    places: &mut [u8],
    all: &mut [u8],
    changes: &mut [u8],
    ones: &mut [u8],
    message: &mut [u8],
    numbers: &mut [u8],
    requests: &mut [u8],
    counts: &mut [u16],
    bits: &mut [u16],
    frames: &mut [u8],
)
    requires lent { Lent size mode places.old all.old changes.old ones.old message.old }
    requires fits { Fits size mode slots.now (five numbers.old requests.old counts.old bits.old frames.old) }
    ensures { EachTo size mode (length numbers.old) slots.now
        (five numbers.old requests.old counts.old bits.old frames.old)
        (five numbers.new requests.new counts.new bits.new frames.new) }
{
    let long = slot_sizes::frame_bytes(size, mode);
    let mut at: usize = 0;
    let mut put: usize = 0;
    for i in 0..numbers.len() {
        let end = at + size;
        let stop = put + long;
        let answer = slot_judging::judge(
            size,
            mode,
            &slots[at..end],
            places,
            all,
            changes,
            ones,
            message,
            &mut frames[put..stop],
        );
        numbers[i] = refusals::numbered(answer);
        let told = answer.unwrap_or(Reception::NONE);
        requests[i] = told.request;
        counts[i] = told.count;
        bits[i] = told.bits;
        at = end;
        put = stop;
    }
}
