// The timer's row: its box, and the messages on the timer by number, each with the task that it returns to and, where there is a
// timer buffer, in how many ticks.
ghost use Rattle.std.specs.Prelude.{◌≤◌};

use crate::boxes::{TIMED, draw_box, start_box};
use crate::page::{draw_row, end_row};
use lent::by_word::{is_timed, message_meant};
use lent::bytes::Lent;
use std::io;
use std::io::Write;
use telling::timer_buffer::{Timer, entry_of, ticks_left};
use telling::totals::blocks;
use timer::bytes::{entry_at, now_at};

// The timer's own box.
fn draw_timer<W: Write>(out: &mut W, s: Option<&Timer>, n: u16) -> io::Result<()> {
    write!(
        out,
        "<g class='timer'><rect width='340' height='50' rx='8'/><text class='k' x='12' y='24'>timer</text>",
    )?;
    if let Some(s) = s {
        let now = now_at(s);
        write!(out, "<text class='right' x='328' y='23'>now {now}</text>")?;
    }
    writeln!(
        out,
        "<text class='small' x='12' y='41'>messages on the timer: {n}</text></g>",
    )
}

// When message m is due, by its entry: in a buffer for this board each that is on the timer has one.
fn draw_due<W: Write>(out: &mut W, s: &Timer, m: u16) -> io::Result<()> {
    let Some(i) = entry_of(s, m) else {
        return Ok(());
    };
    let left = ticks_left(now_at(s), entry_at(s, i).due);
    let ticks = if left == 1 { "tick" } else { "ticks" };
    write!(
        out,
        "<text class='small' x='8' y='44'>{left} {ticks}</text>",
    )
}

fn draw_message<W: Write>(
    out: &mut W,
    l: Lent<'_>,
    s: Option<&Timer>,
    m: u16,
    n: u32,
) -> io::Result<()> {
    let u = message_meant(l, m);
    start_box(out, TIMED, u, n, 0)?;
    draw_box(out, TIMED, m, u)?;
    let back = u.sptr;
    write!(
        out,
        "<text class='small' x='8' y='30'>back to {back}</text>",
    )?;
    if let Some(s) = s {
        draw_due(out, s, m)?;
    }
    writeln!(out, "</g>")
}

// The row at y, which is so high.
pub(crate) fn draw_on_timer<W: Write>(
    out: &mut W,
    l: Lent<'_>,
    s: Option<&Timer>,
    y: u32,
    high: u32,
) -> io::Result<()>
    requires { 6 ≤ high }
{
    draw_row(out, y, high - 6)?;
    draw_timer(out, s, blocks(l, 128, 128))?;
    let timed = (1..=l.size.messages).filter(|m| is_timed(l, *m));
    for (m, n) in timed.zip(0u32..) {
        draw_message(out, l, s, m, n)?;
    }
    end_row(out)
}
