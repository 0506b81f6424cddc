// The frame of a slot's data in order: the heading is made anew and compared, and the frame written where it matches; and the answer for a
// slot whose words are corrected. Inner: `slot` and `slot_judging` stand over it. It asks for a size and a mode in range and for data of
// their length.
#![tactic(auto)]

ghost use Rattle.std.specs.Prelude.{◌≡◌, length};
ghost use Rattle.laws.specs.Decides.{Decides};
ghost use Rattle.slot_laws.specs.Back.{rolled, Matches};
ghost use Rattle.slot_laws.specs.Order.{Data};
ghost use Rattle.slot_laws.specs.Sizes.{InRange, frame_size};
ghost use Rattle.slot_delivery.specs.Inner.{Carries, FrameRoom, IsDelivered, IsAnswered};

use refusals::Refusal;
use slot_answers::Reception;

// Whether the heading is the one that the request and the frame's semi-octets make.
pub fn matches(size: usize, mode: usize, request: u32, message: &[u8]) -> bool
    requires { Carries size mode request message.now }
    ensures { Decides (Matches size mode message.now) result }
{
    let h = slot_sizes::heading_size(size, mode);
    let mut head = [0u8; 10];
    slot_ordering::put_heading(size, mode, request, &message[h..], &mut head[..h]);
    head[..h] == message[..h]
}

// The frame of its semi-octets.
pub fn roll(a: &[u8], frame: &mut [u8])
    requires { FrameRoom a.now frame.old }
    ensures { frame.new ≡ rolled (length frame.old) a.now }
{
    let n = frame.len();
    for (j, x) in frame.iter_mut().enumerate() {
        *x = a[2 * n - 1 - 2 * j] + 16 * a[2 * n - 1 - (2 * j + 1)];
    }
}

// The frame, written where the heading matches and nowhere else.
pub fn deliver(size: usize, mode: usize, request: u32, message: &[u8], frame: &mut [u8]) -> bool
    requires carries { Carries size mode request message.now }
    requires frame_len { length frame.old ≡ frame_size size mode }
    ensures { IsDelivered size mode message.now frame.old frame.new result }
{
    let heading = slot_sizes::heading_size(size, mode);
    if !matches(size, mode, request, message) {
        return false;
    }
    roll(&message[heading..], frame);
    true
}

// The answer for the data of a slot whose words are corrected, with the counts of that: the swap undone, the heading compared, the frame
// written or not.
pub fn answer(
    size: usize,
    mode: usize,
    count: u16,
    bits: u16,
    message: &mut [u8],
    frame: &mut [u8],
) -> Result<Reception, Refusal>
    requires in_range { InRange size mode }
    requires fact { Data size mode message.old }
    requires frame_len { length frame.old ≡ frame_size size mode }
    ensures answered { IsAnswered size mode message.old count bits frame.old frame.new result }
    ensures fact_2 { Data size mode message.new }
{
    slot_ordering::swap_request(size, mode, message);
    let at = 2 * slot_sizes::first_hash_size(size) - 1;
    let request = message[at] / 4;
    if !deliver(size, mode, u32::from(request), message, frame) {
        return Err(Refusal::Foreign);
    }
    Ok(Reception {
        request,
        count,
        bits,
    })
}
