// Lists the session record on standard input: `records N` and a line for each entry, `damaged`, or `too long`.
// It stands over `record_listing`, whose proved `list` makes the text, and over the library's standard streams, of whose bytes no
// contract speaks: those are tested. A read or a write that fails is said on standard error.
#![tactic(auto)]

fn main(rt: HostRuntime) {
    let mut bytes = [0u8; 65537];
    let Ok(n) = input::read_all(&mut rt.stdin(), &mut bytes) else {
        say(&rt, b"list: standard input cannot be read\n");
        return;
    };
    let mut text = [0u8; 65536];
    // The buffer has the room that every listing fits.
    let at = record_listing::list(&bytes[..n], &mut text).unwrap();
    if output::write_all(&mut rt.stdout(), &text[at..]).is_err() {
        say(&rt, b"list: standard output cannot be written\n");
    }
}

// Nothing is left to be done where standard error cannot be written.
fn say(rt: &HostRuntime, text: &[u8]) {
    let _ = output::write_all(&mut rt.stderr(), text);
}
