// Writing what a program says to its end, and telling a write that fails: none is tried again, also where a signal interrupts it.
// It stands over the library's writers. Promised for a writer whose bytes a contract can name: `Ok` only where all of them were taken.
#![tactic(auto)]

ghost use Rattle.std.specs.Result.{OnOk};
ghost use Rattle.std.specs.Io.KnownBytes.{Appends};

use std::io;
use std::io::{ErrorKind, Write};

// Writes the whole text; an error at the first write that fails or takes nothing.
pub fn write_all<W: Write>(to: &mut W, text: &[u8]) -> io::Result<()>
    ensures { OnOk result (Appends (W.contents to.old) (W.contents to.new) text.now) }
{
    let mut rest = text;
    // No `for`: each write says how much it took.
    while !rest.is_empty() {
        let more = to.write(rest)?;
        if more == 0 {
            return Err(ErrorKind::WriteZero.into());
        }
        rest = &rest[more..];
    }
    Ok(())
}
