// Reading an input of bounded length.
#![tactic(auto)]

ghost use Rattle.std.specs.Prelude.{◌≡◌, IfOk, IfSome, length, take};
ghost use Rattle.std.specs.Io.{ReadsAtMost};

use std::io;
use std::io::Read;

// Reads until the buffer is full or the input ends, and answers how many bytes it put at the start of the buffer. Of a reader of which it is known what it has
// left, these are the first bytes of that: as many as the buffer holds, or all of it.
pub fn read_full<R: Read>(reader: &mut R, buffer: &mut [u8]) -> io::Result<usize>
    ensures bound { ReadsAtMost result buffer.new }
    ensures bytes { IfOk result (λ n. IfSome (R.remaining reader.old) (λ input. take n buffer.new ≡ take (length buffer.new) input)) }
{
    let mut at = 0;
    // A `while`, since how far a turn goes is what the reader says: a `for` would be no plainer.
    while at < buffer.len() {
        let n = reader.read(&mut buffer[at..])?;
        if n == 0 {
            return Ok(at);
        }
        at += n;
    }
    Ok(at)
}
