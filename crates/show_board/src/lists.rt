// The messages of a task, three to a line: a number, its priority, and who sent it to whom.
ghost use Rattle.std.specs.Iterator.{UpTo};

use board::numbers::{MsgNo, Number, TaskNo};
use board::priority::number;
use lent::by_word::{message_meant, place_meant};
use lent::bytes::Lent;
use std::io;
use std::io::Write;
use telling::order::order;
use telling::walks::queue;

// What is shown of a message, with FIFO or LIFO where that is said.
#[derive(Clone, Copy)]
struct Shown {
    message: u16,
    prio: u8,
    order: Option<&'static str>,
    from: u16,
    to: u16,
}

// Where message n of a list goes: the first behind the label, every third below it, the others beside the one before, so many
// columns behind its end.
fn start<W: Write>(out: &mut W, label: &str, n: usize, gap: Option<usize>) -> io::Result<()> {
    match gap {
        None => write!(out, "{:8}{label}", ""),
        Some(_) if n % 3 == 0 => write!(out, "\n{:13}", ""),
        Some(gap) => write!(out, "{:gap$}", ""),
    }
}

// Who sent it and to whom, where there is one. Answers how many columns behind its end the next begins.
fn show_ends<W: Write>(out: &mut W, from: u16, to: u16) -> io::Result<usize> {
    match (from, to) {
        (0, 0) => return Ok(17),
        (_, 0) => {
            write!(out, " from {from:2}")?;
            return Ok(9);
        }
        (0, _) => write!(out, "{:8} to {to:2}", "")?,
        _ => write!(out, " from {from:2} to {to:2}")?,
    }
    Ok(3)
}

fn show_one<W: Write>(out: &mut W, u: Shown) -> io::Result<usize> {
    write!(out, "{:4} prio {:3}", u.message, number(u.prio))?;
    if let Some(order) = u.order {
        write!(out, " {order}")?;
    }
    show_ends(out, u.from, u.to)
}

fn show_list<W: Write, I: Iterator<Item = Shown>>(
    out: &mut W,
    label: &str,
    list: I,
) -> io::Result<()>
    requires can_next { I.can_next list }
    requires up_to { UpTo (I.remaining list) 65535 }
{
    let mut gap = None;
    for (n, u) in list.enumerate() {
        start(out, label, n, gap)?;
        gap = Some(show_one(out, u)?);
    }
    if gap.is_some() {
        writeln!(out)?;
    }
    Ok(())
}

fn held(l: Lent<'_>, m: u16) -> Shown {
    let u = message_meant(l, m);
    Shown {
        message: m,
        prio: u.prio,
        order: Some(order(u.prio)),
        from: u.sptr,
        to: u.rptr,
    }
}

pub(crate) fn show_held<W: Write>(out: &mut W, l: Lent<'_>, k: TaskNo) -> io::Result<()> {
    let all = (1..=l.size.messages)
        .filter(|m| place_meant(l, *m).is_held_by(k))
        .map(|m| held(l, m));
    show_list(out, "holds", all)
}

// The queue in its order. RPTR is shown where it is not the task whose queue this is: the message was forwarded or returned.
pub(crate) fn show_queue<W: Write>(
    out: &mut W,
    l: Lent<'_>,
    k: TaskNo,
    first: Option<MsgNo>,
) -> io::Result<()> {
    let all = queue(l, first).map(|(m, u)| Shown {
        message: m.number(),
        prio: u.prio,
        order: None,
        from: u.sptr,
        to: if u.rptr == k.number() { 0 } else { u.rptr },
    });
    show_list(out, "queue", all)
}
