// A timer buffer beside a board that passes: whether it is one for that board, and in words why not; and when its messages are
// due. A program is handed it on descriptor 3, where the board is on standard input.
ghost use Rattle.std.specs.Prelude.{◌≡◌, ◌+◌, ◌<◌, ◌≤◌, true, length, IfOk, IfSome};
ghost use Rattle.io.specs.Counts.{IsPrefixLen};
ghost use Rattle.lent.specs.Lent.{board};
ghost use Rattle.timing.specs.Timing.{good_timer, wrapped};

use crate::finding::tell_bytes;
use crate::input::read_full;
use crate::read_descriptor;
use lent::by_word::is_timed;
use lent::bytes::Lent;
use std::io::{ErrorKind, Write};
use std::rt::Files;
use std::{fs, io};
use timer::bytes::entry_at;
use timer::entry::Entry;
use timer_rules::good_timer;

// The bytes of a timer buffer.
pub type Timer = [u8; 50];

const TIMER_FILENO: i32 = 3;

// Descriptor 3 by its path, and what the system tells of it.
const TIMER: &str = "/dev/fd/3";

const TOLD_OF_TIMER: &str = "/proc/self/fdinfo/3";

// The second line of what is told has the flags in octal. Their last digit is 1 where the descriptor is open for writing alone.
fn is_for_reading(told: &[u8]) -> bool {
    let mut lines = told.split(|b| *b == b'\n').skip(1);
    let Some(flags) = lines.next() else {
        return false;
    };
    lines.next().is_some() && flags.last() != Some(&b'1')
}

// Descriptor 3 is open, and for reading.
fn is_open<R: Files>(rt: &R) -> io::Result<bool> {
    let mut space = [0u8; 256];
    match fs::open(rt, TOLD_OF_TIMER) {
        Ok(mut told) => {
            let n = read_full(&mut told, &mut space)?;
            Ok(is_for_reading(&space[..n]))
        }
        Err(e) if e.kind() == ErrorKind::NotFound => Ok(false),
        Err(e) => Err(e),
    }
}

// How many bytes it has, up to what there is space for.
pub fn read_timer(space: &mut [u8]) -> usize
    ensures { IsPrefixLen result space.new }
{
    read_descriptor(TIMER_FILENO, space)
}

// Of so many bytes read: was there a buffer? One of no bytes is not the same as none.
pub fn is_lent<R: Files>(rt: &R, n: usize) -> io::Result<bool>
    ensures { 0 < n → result ≡ Ok true }
{
    if 0 < n {
        return Ok(true);
    }
    if !is_open(rt)? {
        return Ok(false);
    }
    // a directory is open for reading, and yet cannot be read
    Ok(!fs::metadata(rt, TIMER)?.is_dir())
}

// The lowest entry that names message m.
pub fn entry_of(s: &[u8], m: u16) -> Option<u16>
    requires { 50 ≤ length s.now }
    ensures { IfSome result (λ i. (0 < i) × (i ≤ 16)) }
{
    (1..=16).find(|&i| entry_at(s, i).message as u16 == m)
}

// In how many ticks the counter, which is at this word, comes to the due word. Where they are equal, it goes all the way round.
pub fn ticks_left(at: u16, due: u16) -> u32
    ensures { (0 < result) × (result ≤ 65536) × (wrapped (at + result) ≡ due) }
{
    if at < due {
        return (due - at) as u32;
    }
    65536 - (at - due) as u32
}

// Entry i, where it is bad. Answers whether it is.
fn tell_bad_entry<W: Write>(out: &mut W, l: Lent<'_>, s: &[u8], i: u16) -> io::Result<bool>
    requires { 50 ≤ length s.now }
{
    let Entry { message: m, due } = entry_at(s, i);
    if m == 0 {
        if due == 0 {
            return Ok(false);
        }
        write!(out, "entry {i} is free but not zero: its due word is {due}")?;
        return Ok(true);
    }
    if l.size.messages < m as u16 {
        write!(
            out,
            "entry {i} names message {m}, which is beyond the board"
        )?;
        return Ok(true);
    }
    if !is_timed(l, m as u16) {
        write!(
            out,
            "entry {i} names message {m}, which is not on the timer"
        )?;
        return Ok(true);
    }
    if let Some(j) = entry_of(s, m as u16)
        && j < i
    {
        write!(
            out,
            "entry {i} names message {m}, which entry {j} names too"
        )?;
        return Ok(true);
    }
    Ok(false)
}

// The lowest entry that is bad. Answers whether there is one.
fn tell_entries<W: Write>(out: &mut W, l: Lent<'_>, s: &[u8]) -> io::Result<bool>
    requires { 50 ≤ length s.now }
{
    for i in 1..=16 {
        if tell_bad_entry(out, l, s, i)? {
            return Ok(true);
        }
    }
    Ok(false)
}

// The lowest message that is on the timer and that no entry names.
fn tell_messages<W: Write>(out: &mut W, l: Lent<'_>, s: &[u8]) -> io::Result<()>
    requires { 50 ≤ length s.now }
{
    for m in 1..=l.size.messages {
        if is_timed(l, m) && entry_of(s, m).is_none() {
            return write!(out, "message {m} is on the timer and in no entry");
        }
    }
    Ok(())
}

fn tell_reason<W: Write>(out: &mut W, l: Lent<'_>, s: &[u8]) -> io::Result<()> {
    let n = s.len();
    if n != 50 {
        tell_bytes(out, n)?;
        return write!(out, "; a timer buffer is 50");
    }
    if !tell_entries(out, l, s)? {
        tell_messages(out, l, s)?;
    }
    Ok(())
}

// The buffer is one for this board; if not, its refusal is told in its line.
pub fn timer_judged<W: Write>(out: &mut W, l: Lent<'_>, s: &[u8]) -> io::Result<bool>
    ensures { IfOk result (λ b. b ≡ good_timer (board l.entry) s.now) }
{
    let good = good_timer(l, s);
    if !good {
        write!(out, "refused (18): ")?;
        tell_reason(out, l, s)?;
        writeln!(out)?;
    }
    Ok(good)
}
