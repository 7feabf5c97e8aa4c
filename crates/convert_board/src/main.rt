// PROGRAM. A board from standard input that was saved when byte 1 was always zero, and the bytes of the new board that it
// becomes, or the refusal in one line.
#![tactic(auto)]

use std::io;
use std::io::Write;
use telling::finding::converted;
use telling::input::read_full;

fn convert<W: Write>(out: &mut W, l: &mut [u8]) -> io::Result<()> {
    if converted(out, l)?.is_ok() {
        out.write_all(l)?;
    }
    Ok(())
}

fn main(rt: HostRuntime) -> io::Result<()> {
    let mut out = rt.stdout();
    let mut space = [0u8; 65536];
    let n = read_full(&mut rt.stdin(), &mut space)?;
    convert(&mut out, &mut space[..n])?;
    out.flush()
}
