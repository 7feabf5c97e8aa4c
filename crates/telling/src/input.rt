// Bytes of a file or of standard input.
ghost use Rattle.std.specs.Io.{ReadsAtMost};

use std::io;
use std::io::Read;

// Reads until the space is full or the input ends. Answers how many bytes there are.
pub fn read_full<R: Read>(input: &mut R, space: &mut [u8]) -> io::Result<usize>
    ensures { ReadsAtMost result space.new }
{
    // a `while` stays: how far a read comes is the input's, and std counts what comes short only where it has a heap
    let mut at = 0;
    while at < space.len() {
        let n = input.read(&mut space[at..])?;
        if n == 0 {
            break;
        }
        at += n;
    }
    Ok(at)
}
