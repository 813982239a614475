// Bytes from an input put into a lent buffer, behind one another from its first place on.
#![tactic(auto)]

ghost use Rattle.std.specs.Prelude.{◌≤◌, ◌<◌, length, take, OnOk, OnErr};
ghost use Rattle.std.specs.Io.KnownBytes.{Consumes, IsAtEnd};

use std::io;
use std::io::Read;

// Fills a buffer as far as the input goes. How many bytes came is said apart from whether the input could be read on, since those that came before a
// failed read are none the worse for it, and who calls may want them. A read that was interrupted has failed like any other.
pub fn fill<R: Read>(input: &mut R, buffer: &mut [u8]) -> (usize, io::Result<()>)
    ensures few { result.0 ≤ length buffer.new }
    ensures bytes { Consumes (R.remaining input.old) (R.remaining input.new) (take result.0 buffer.new) }
    ensures end { OnOk result.1 (result.0 < length buffer.new → IsAtEnd (R.remaining input.new)) }
    ensures room { OnErr result.1 (result.0 < length buffer.new) }
{
    let mut count = 0;
    // how far each turn goes on is told by the read, so no range or iterator says it
    while count < buffer.len() {
        match input.read(&mut buffer[count..]) {
            Ok(0) => return (count, Ok(())),
            Ok(more) => count += more,
            Err(error) => return (count, Err(error)),
        }
    }
    (count, Ok(()))
}
