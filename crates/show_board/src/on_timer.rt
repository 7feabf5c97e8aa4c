// The messages on the timer, by number, and with the timer buffer when each is due; and a buffer as it is stored.
use crate::words::Name;
use board::priority::number;
use lent::by_word::{is_timed, message_meant, task_meant};
use lent::bytes::Lent;
use std::io;
use std::io::Write;
use telling::order::order;
use telling::timer_buffer::{Timer, entry_of, ticks_left};
use telling::totals::blocks;
use timer::bytes::{entry_at, now_at};

fn show_message<W: Write>(out: &mut W, l: Lent<'_>, m: u16) -> io::Result<()> {
    let u = message_meant(l, m);
    let back = task_meant(l, u.sptr);
    write!(
        out,
        "{m:9}{:10}  {}{:6}{:6}{}",
        number(u.prio),
        order(u.prio),
        u.rptr,
        u.sptr,
        Name(back.name),
    )
}

// When message m is due, by its entry: in a buffer for this board each that is on the timer has one. A tick is 12.8 ms: so many
// seconds, to the last digit.
fn show_due<W: Write>(out: &mut W, s: &Timer, m: u16) -> io::Result<()> {
    let Some(i) = entry_of(s, m) else {
        return Ok(());
    };
    let e = entry_at(s, i);
    let left = ticks_left(now_at(s), e.due);
    let parts = u64::from(left) * 128;
    write!(
        out,
        "{i:7}{:7}{left:10}{:6}.{:04}",
        e.due,
        parts / 10000,
        parts % 10000,
    )
}

fn show_line<W: Write>(out: &mut W, l: Lent<'_>, s: Option<&Timer>, m: u16) -> io::Result<()> {
    show_message(out, l, m)?;
    if let Some(s) = s {
        show_due(out, s, m)?;
    }
    writeln!(out)
}

fn show_messages<W: Write>(out: &mut W, l: Lent<'_>, s: Option<&Timer>) -> io::Result<()> {
    write!(out, "  message  priority        RPTR  SPTR  returns to")?;
    if s.is_some() {
        write!(out, "   entry    due  in ticks    seconds")?;
    }
    writeln!(out)?;
    for m in (1..=l.size.messages).filter(|m| is_timed(l, *m)) {
        show_line(out, l, s, m)?;
    }
    Ok(())
}

// Where there is a buffer, as many of its entries are used as messages are on the timer.
pub(crate) fn show_timer<W: Write>(out: &mut W, l: Lent<'_>, s: Option<&Timer>) -> io::Result<()> {
    let n = blocks(l, 128, 128);
    if n == 0 && s.is_none() {
        return Ok(());
    }
    write!(out, "\ntimer")?;
    if let Some(s) = s {
        write!(out, ": now {}; {n} of 16 entries used", now_at(s))?;
    }
    writeln!(out)?;
    if 0 < n {
        show_messages(out, l, s)?;
    }
    Ok(())
}

// A buffer that is refused: every entry that is not zero.
pub(crate) fn show_stored<W: Write>(out: &mut W, s: &Timer) -> io::Result<()> {
    writeln!(out, "\ntimer buffer: now {}", now_at(s))?;
    writeln!(out, "  entry  message    due")?;
    for i in 1..=16u16 {
        let e = entry_at(s, i);
        if e.message != 0 || e.due != 0 {
            writeln!(out, "{i:7}{:9}{:7}", e.message, e.due)?;
        }
    }
    Ok(())
}
