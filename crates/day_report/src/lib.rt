// The report of a day: what the walk counted (`tally`), in words that want no papers. It stands over `day_sample`, for what
// happens on the way.
// Inner: `day_way` and `day` stand over it. It asks nothing.
#![tactic(auto)]

ghost use Rattle.std.specs.Prelude.{◌≤◌, length};

use tally::Tally;
use text::fill;

pub mod tally;
mod text;

// Puts the whole report at the start of a buffer, and answers where it ends.
pub fn report(out: &mut [u8], frames: usize, room: usize, t: Tally) -> usize
    ensures { result ≤ length out.old }
{
    let a = taken(out, 0, frames, t);
    let b = sent(out, a, t);
    let c = accepted(out, b, t);
    let d = read(out, c, t);
    let e = refused(out, d, t);
    kept(out, e, room, t)
}

// What the sample has, and what the headset makes of it.
fn taken(out: &mut [u8], at: usize, frames: usize, t: Tally) -> usize
    ensures { result ≤ length out.old }
{
    let unreached = frames.saturating_sub(t.left_out).saturating_sub(t.sent);
    let numbers = [frames, t.left_out, t.sent, unreached, t.written, t.as_is];
    fill(
        out,
        at,
        "Frames of speech go through the air and into a record. The headset reads each frame of the sample
into its fields, writes it anew from them and protects it in a slot, semi-octets (half bytes) of
the slot are changed on the way by a fixed rule, the receiver repairs the slot or refuses it,
compares and reads the frame, and stores it in the record.
A slot is made of words of 13 to 15 semi-octets; its mode says how many of each can be repaired.

The sample
  frames
  left out: no slot carries exactly that many bytes
  sent, each in the smallest slot and its strongest mode
  not reached: the record was full

Frames sent, by how the headset has them
  written anew from the fields that were read
  as the sample has them: from their fields they cannot be written
",
        &numbers,
    )
}

fn sent(out: &mut [u8], at: usize, t: Tally) -> usize
    ensures { result ≤ length out.old }
{
    let numbers = [
        t.mode_2,
        t.mode_3,
        t.mode_4,
        t.untouched,
        t.few,
        t.most,
        t.beyond,
    ];
    fill(
        out,
        at,
        "
Slots sent, by mode
  mode 2: 1 semi-octet of each word can be repaired
  mode 3: 2 semi-octets of each word can be repaired
  mode 4: 3 semi-octets of each word can be repaired

Slots sent, by what happens on the way
  nothing is changed
  1 to 5 semi-octets are changed
  as many as can be repaired are changed in every word
  one more than can be repaired is changed in every word
",
        &numbers,
    )
}

fn accepted(out: &mut [u8], at: usize, t: Tally) -> usize
    ensures { result ≤ length out.old }
{
    let numbers = [
        t.clean,
        t.repaired,
        t.semi_octets,
        t.bits,
        t.other_frames,
        t.other_requests,
        t.other_counts,
        t.other_bits,
    ];
    fill(
        out,
        at,
        "
Slots accepted
  clean
  repaired
  semi-octets repaired in them
  bits repaired in them

Accepted slots beside what was sent
  frames that differ
  requests that differ
  counts of repaired semi-octets that differ from the changes made
  counts of repaired bits that differ from the changes made
",
        &numbers,
    )
}

fn read(out: &mut [u8], at: usize, t: Tally) -> usize
    ensures { result ≤ length out.old }
{
    let numbers = [t.frames, t.lines, t.symbols];
    fill(
        out,
        at,
        "
Accepted frames read into their fields
  frames
  spectral lines, up to each frame's last one
  symbols of the arithmetic code
",
        &numbers,
    )
}

fn refused(out: &mut [u8], at: usize, t: Tally) -> usize
    ensures { result ≤ length out.old }
{
    let numbers = [
        t.refused_1,
        t.refused_2,
        t.refused_3,
        t.refused_4,
        t.refused_5,
        t.refused_6,
        t.refused_7,
    ];
    fill(
        out,
        at,
        "
Refused, by number
  1: a setting is out of range
  2: a buffer has another length than it must have
  3: a word of the slot is beyond repair
  4: every word repaired, but not to a slot that protecting makes
  5: a bit error in the frame
  6: the record has no room, and the walk ends
  7: the bytes are not a record
",
        &numbers,
    )
}

fn kept(out: &mut [u8], at: usize, room: usize, t: Tally) -> usize
    ensures { result ≤ length out.old }
{
    let numbers = [room, t.used, t.stored];
    fill(
        out,
        at,
        "
The record
  bytes it has room for
  bytes used
  entries stored

Its listing: the number of entries, then for each its place, the bytes of its frame, the request
and the semi-octets repaired
",
        &numbers,
    )
}
