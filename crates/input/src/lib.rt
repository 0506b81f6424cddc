// Reading what is lent to a program, to its end, and telling a read that fails from the end. It stands over the library's readers,
// of whose bytes no contract speaks: what is promised is how much was read.
#![tactic(auto)]

ghost use Rattle.std.specs.Prelude.{length};
ghost use Rattle.input.specs.Input.{InputFits};

use std::io;
use std::io::Read;

// Reads to the end of the input, however it arrives, or until the buffer is full, and answers how much was read.
pub fn read_all<R: Read>(from: &mut R, buffer: &mut [u8]) -> io::Result<usize>
    ensures { InputFits result (length buffer.old) }
{
    let mut done = 0;
    // No `for`: each read says how much it took.
    while done < buffer.len() {
        let more = from.read(&mut buffer[done..])?;
        if more == 0 {
            return Ok(done);
        }
        done += more;
    }
    Ok(done)
}
