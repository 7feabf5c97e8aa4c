// The boxes of messages, and those of a task: its queue with an arrow to each from the one before, and what it holds.
ghost use Rattle.std.specs.Prelude.{◌≤◌};

use crate::rows::{BESIDE, ROW, TIMED_ROW};
use board::numbers::{MsgNo, Number, TaskNo};
use board::priority::{fifo, number};
use board::records::Message;
use lent::by_word::{message_meant, place_meant};
use lent::bytes::Lent;
use std::io;
use std::io::Write;
use telling::order::order;
use telling::walks::queue;

// How the boxes of a list look: their class, how wide and high they are, where in them the priority ends and both numbers stand,
// and how far apart their rows are.
#[derive(Clone, Copy)]
pub(crate) struct Look {
    class: &'static str,
    wide: u32,
    high: u32,
    right: u32,
    low: u32,
    apart: u32,
}

const QUEUED: Look = Look {
    class: "queued",
    wide: 70,
    high: 30,
    right: 63,
    low: 20,
    apart: ROW,
};

const HELD: Look = Look {
    class: "held",
    ..QUEUED
};

pub(crate) const TIMED: Look = Look {
    class: "timed",
    wide: 80,
    high: 50,
    right: 73,
    low: 16,
    apart: TIMED_ROW,
};

// What a person sees who points at the box.
fn draw_details<W: Write>(out: &mut W, m: u16, u: Message) -> io::Result<()> {
    write!(
        out,
        "<title>message {m}, priority {}, {}",
        number(u.prio),
        order(u.prio),
    )?;
    if u.sptr != 0 {
        write!(out, ", from task {}", u.sptr)?;
    }
    if u.rptr != 0 {
        write!(out, ", to task {}", u.rptr)?;
    }
    write!(out, "</title>")
}

// The box of message n of a list whose first row is at y. LIFO has a broken line; nothing that is queued is LIFO.
pub(crate) fn start_box<W: Write>(
    out: &mut W,
    look: Look,
    u: Message,
    n: u32,
    y: u32,
) -> io::Result<()> {
    let class = look.class;
    let lifo = if fifo(u.prio) { "" } else { " lifo" };
    let x = 380 + 88 * (n % BESIDE);
    let y = u64::from(y) + u64::from(look.apart) * u64::from(n / BESIDE);
    write!(
        out,
        "<g class='{class}{lifo}' transform='translate({x},{y})'>",
    )
}

pub(crate) fn draw_box<W: Write>(out: &mut W, look: Look, m: u16, u: Message) -> io::Result<()> {
    draw_details(out, m, u)?;
    let Look {
        wide,
        high,
        right,
        low,
        ..
    } = look;
    write!(
        out,
        "<rect width='{wide}' height='{high}' rx='5'/><text class='no' x='8' y='{low}'>{m}</text>",
    )?;
    write!(
        out,
        "<text class='pr' x='{right}' y='{low}'>p{}</text>",
        number(u.prio),
    )
}

// From the task's box to the first, from the end of a row down to the next row, and from a box to the one beside it.
fn draw_arrow<W: Write>(out: &mut W, n: u32) -> io::Result<()> {
    let path = match n {
        0 => "M-40,15 h34",
        n if n % BESIDE == 0 => "M774,-29 h12 v22 H-22 v22 h16",
        _ => "M-18,15 h12",
    };
    write!(out, "<path d='{path}'/>")
}

// The queue in its order.
pub(crate) fn draw_queue<W: Write>(
    out: &mut W,
    l: Lent<'_>,
    first: Option<MsgNo>,
) -> io::Result<()> {
    for ((m, u), n) in queue(l, first).zip(0u32..) {
        start_box(out, QUEUED, u, n, 10)?;
        draw_arrow(out, n)?;
        draw_box(out, QUEUED, m.number(), u)?;
        writeln!(out, "</g>")?;
    }
    Ok(())
}

// What the task holds, below so many rows of its queue.
pub(crate) fn draw_held<W: Write>(out: &mut W, l: Lent<'_>, k: TaskNo, below: u32) -> io::Result<()>
    requires { below ≤ 7300 }
{
    let y = ROW * below;
    let held = (1..=l.size.messages).filter(|m| place_meant(l, *m).is_held_by(k));
    for (m, n) in held.zip(0u32..) {
        if n == 0 {
            let low = y + 30;
            writeln!(out, "<text class='label' x='370' y='{low}'>holds</text>")?;
        }
        let u = message_meant(l, m);
        start_box(out, HELD, u, n, y + 10)?;
        draw_box(out, HELD, m, u)?;
        writeln!(out, "</g>")?;
    }
    Ok(())
}
