// Walks the path of the speech on the sample on standard input: each frame is written anew from its fields and protected in a slot, the
// slot is changed by a fixed rule, unprotected, read and stored in a record; then says what happened. It stands over `day_page`, which
// walks and words what happened, and the library's standard streams, of whose bytes no contract speaks. What goes wrong is said on
// standard error.
#![tactic(auto)]

use day_sample::sample::{SampleError, survey};
use std::io;

fn main(rt: HostRuntime) {
    let mut bytes = [0u8; 65537];
    let Ok(n) = input::read_all(&mut rt.stdin(), &mut bytes) else {
        say(&rt, b"day: the sample cannot be read\n");
        return;
    };
    if 65536 < n {
        say(&rt, b"day: the sample is longer than 65,536 bytes\n");
        return;
    }
    let sample = &bytes[..n];
    match survey(sample) {
        Ok(frames) => run(&rt, sample, frames),
        Err(SampleError::CutShort) => say(&rt, b"day: the sample is cut short\n"),
        Err(SampleError::UnknownRate) => {
            say(
                &rt,
                b"day: the sample has a rate that is none of 8, 16, 24, 32 and 48 kHz\n",
            )
        }
        Err(SampleError::UnknownDuration) => {
            say(
                &rt,
                b"day: the sample has a duration that is none of 2.5, 5, 7.5 and 10 ms\n",
            )
        }
        Err(SampleError::BadLength) => {
            say(
                &rt,
                b"day: the sample has a frame that is not of 20 to 400 bytes\n",
            )
        }
    }
}

// Nothing is left to be done where standard error cannot be written.
fn say(rt: &HostRuntime, text: &[u8]) {
    let _ = output::write_all(&mut rt.stderr(), text);
}

// The walk with a new record of form 2, then what is written.
fn run(rt: &HostRuntime, sample: &[u8], frames: usize) {
    let mut buffer = [0u8; 10240];
    let mut text = [0u8; 8192];
    let mut lines = [0u8; 65536];
    if record::new(2, &mut buffer).is_err() {
        say(rt, b"day: there is no room for a record\n");
        return;
    }
    let shown = show(rt, sample, frames, &mut buffer, &mut text, &mut lines);
    if shown.is_err() {
        say(rt, b"day: standard output cannot be written\n");
    }
}

// Walks, and writes the report and the record's listing.
fn show(
    rt: &HostRuntime,
    sample: &[u8],
    frames: usize,
    buffer: &mut [u8],
    text: &mut [u8],
    lines: &mut [u8],
) -> io::Result<()> {
    let Some(page) = day_page::fill(sample, frames, buffer, text, lines) else {
        return Err(io::ErrorKind::Other.into());
    };
    output::write_all(&mut rt.stdout(), &text[..page.end])?;
    output::write_all(&mut rt.stdout(), &lines[page.start..])
}
