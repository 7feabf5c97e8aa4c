// PROGRAM. A board from standard input, and what the check says of it in one line: it passes and who runs, or it is refused and
// why.
#![tactic(auto)]

use std::io;
use std::io::Write;
use telling::finding::{judged, tell_running};
use telling::input::read_full;

fn tell<W: Write>(out: &mut W, l: &[u8]) -> io::Result<()> {
    if let Ok(k) = judged(out, l)? {
        write!(out, "passes the check; ")?;
        tell_running(out, k)?;
        writeln!(out)?;
    }
    Ok(())
}

fn main(rt: HostRuntime) -> io::Result<()> {
    let mut out = rt.stdout();
    let mut space = [0u8; 65536];
    let n = read_full(&mut rt.stdin(), &mut space)?;
    tell(&mut out, &space[..n])?;
    out.flush()
}
