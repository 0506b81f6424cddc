// The way of the frames from the sample to the record: written anew, protected, changed on the way, unprotected, compared, read, stored.
// What is refused at a step goes no further, and is counted under its number; what cannot be written is sent as it is, and counted too.
// It stands over `day_writing`, `slot`, `frame` and `record`.
// Inner: `day` stands over it. It asks nothing.
#![tactic(auto)]

ghost use Rattle.std.specs.Prelude.{◌≤◌, length};

use day_report::tally::Tally;
use day_sample::{air, sample};
use day_writing::{lines_at, write_anew};
use refusals::Refusal;
use slot::Reception;

// A frame's place in the sample, its rate and duration, and the slot that carries it.
#[derive(Clone, Copy)]
struct Trip {
    place: usize,
    khz: u32,
    duration: u32,
    size: usize,
    mode: u32,
}

// Sends the sample's frames until the sample ends or the record has no room.
pub fn walk(bytes: &[u8], buffer: &mut [u8], used: usize) -> Tally {
    let mut t = Tally::new(used);
    let mut at: usize = 0;
    let mut place: usize = 0;
    // No `for`: each frame says where the next begins.
    while at < bytes.len() {
        let Ok(piece) = sample::frame_at(bytes, at) else {
            return t;
        };
        let frame = &bytes[piece.start..piece.end];
        t = send(place, piece.khz, piece.duration, frame, buffer, t);
        if 0 < t.refused_6 {
            return t;
        }
        at = piece.end;
        place = place + 1;
    }
    t
}

// One frame: the slot for it, and what comes of it.
fn send(place: usize, khz: u32, duration: u32, frame: &[u8], buffer: &mut [u8], t: Tally) -> Tally
    requires { length frame.now ≤ 400 }
{
    let n = frame.len();
    let Some(fit) = air::smallest(n) else {
        return t.leave_out();
    };
    let mut anew = [0u8; 400];
    let mut space = [0u8; 400];
    let mut out = [0u8; 400];
    let trip = Trip {
        place,
        khz,
        duration,
        size: fit.size,
        mode: fit.mode,
    };
    let sent = t.send(fit.mode).weather(air::weather_at(place));
    receive(
        trip,
        frame,
        &mut anew[..n],
        &mut space[..fit.size],
        &mut out[..n],
        buffer,
        sent,
    )
}

// What arrives of a frame that the headset writes anew, compared with what was sent, and kept.
fn receive(
    trip: Trip,
    frame: &[u8],
    anew: &mut [u8],
    slot: &mut [u8],
    out: &mut [u8],
    buffer: &mut [u8],
    t: Tally,
) -> Tally
    requires size_bound { trip.size ≤ 400 }
    requires out_len_bound { length out.old ≤ 400 }
{
    let request = air::request_at(trip.place);
    let changes = air::changes_at(trip.place, trip.size, trip.mode);
    let changed_bits = air::bits_changed(changes, trip.place);
    let sent = t.write(write_anew(trip.khz, trip.duration, frame, anew));
    let got = match carry(trip, request, changes, anew, slot, out) {
        Ok(got) => got,
        Err(refusal) => return sent.refuse(refusal),
    };
    let count = usize::from(got.count);
    let bits = usize::from(got.bits);
    let compared = sent.accept(count, bits).compare(
        &*out == &*anew,
        u32::from(got.request) == request,
        count == changes,
        bits == changed_bits,
    );
    keep(trip.khz, trip.duration, out, got, buffer, compared)
}

// The slot of a frame is made, changed on the way and unprotected.
fn carry(
    trip: Trip,
    request: u32,
    changes: usize,
    frame: &[u8],
    slot: &mut [u8],
    out: &mut [u8],
) -> Result<Reception, Refusal> {
    slot::protect(trip.size, trip.mode, request, frame, slot)?;
    air::change(slot, changes, trip.place);
    slot::unprotect(trip.size, trip.mode, slot, out)
}

// Reads an accepted frame, and stores it where that succeeds.
fn keep(khz: u32, duration: u32, frame: &[u8], got: Reception, buffer: &mut [u8], t: Tally) -> Tally
    requires { length frame.now ≤ 400 }
{
    let n = lines_at(khz, duration);
    let mut spectrum = [0i32; 400];
    let mut residual = [0u8; 400];
    match frame::read(khz, duration, frame, &mut spectrum[..n], &mut residual[..n]) {
        Ok(reading) => {
            let fields = reading.fields;
            let lines = usize::from(fields.side.head.last_line);
            store(
                frame,
                got,
                buffer,
                t.read(lines, usize::from(fields.symbols)),
            )
        }
        Err(refusal) => t.refuse(refusal),
    }
}

// Adds an entry to the record; only what was added is called stored.
fn store(frame: &[u8], got: Reception, buffer: &mut [u8], t: Tally) -> Tally
    requires { length frame.now ≤ 400 }
{
    let added = record::add(
        buffer,
        t.used,
        frame,
        u32::from(got.request),
        u32::from(got.count),
        u32::from(got.bits),
        frame.len() as u32,
    );
    match added {
        Ok(used) => t.store(used as usize),
        Err(refusal) => t.refuse(refusal),
    }
}
