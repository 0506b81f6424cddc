// Protecting and unprotecting with document 01's numbers and C's struct in place of the `Result`. It stands over `slot`.
// Inner: `silberlaus` stands over it. It asks nothing.
#![tactic(auto)]

ghost use Rattle.std.specs.Prelude.{◌≡◌};
ghost use Rattle.slot_protection.specs.Protect.{Protects};
ghost use Rattle.slot.specs.Unprotect.{Recordable, Unprotects};
ghost use Rattle.silberlaus_slots.specs.Told.{told_of};

// C's silberlaus_unprotected.
#[repr(C)]
#[derive(Clone, Copy)]
pub struct SilberlausUnprotected {
    pub number: u8,
    pub request: u8,
    pub semi_octets: u16,
    pub bits: u16,
}

// A slot made of a frame and a request, or 1 or 2.
pub fn protect(size: usize, mode: u32, request: u32, frame: &[u8], sent: &mut [u8]) -> u8
    ensures { Protects size mode request frame.now sent.old sent.new result }
{
    refusals::numbered(slot::protect(size, mode, request, frame, sent))
}

// A refusal: its number, and zero in every other field.
fn refused(number: u8) -> SilberlausUnprotected
    ensures { result ≡ record { number = number; request = 0; semi_octets = 0; bits = 0 } }
{
    SilberlausUnprotected {
        number,
        request: 0,
        semi_octets: 0,
        bits: 0,
    }
}

// The frame, the request and the counts of a received slot, or 1, 2, 3 or 4.
pub fn unprotect(size: usize, mode: u32, received: &[u8], frame: &mut [u8]) -> SilberlausUnprotected
    ensures unprotects { Unprotects size mode received.now frame.old frame.new (told_of result) }
    ensures recordable { Recordable (told_of result) frame.new }
{
    match slot::unprotect(size, mode, received, frame) {
        Ok(found) => SilberlausUnprotected {
            number: 0,
            request: found.request,
            semi_octets: found.count,
            bits: found.bits,
        },
        Err(why) => refused(why.number()),
    }
}
