// The tables of a board that breaks a rule: every record that is not zero, by its number, since the links of such a board may
// lead anywhere. The line of what the rule names is marked.
use crate::words::{Name, tell_bits};
use board::numbers::{Number, TaskNo};
use board::places::Place;
use board::status::Status;
use lent::by_word::{message_meant, place_meant, task_meant};
use lent::bytes::{Lent, byte};
use paper::answer::Rule;
use record_rules::messages::zero_message;
use record_rules::tasks::good_task;
use std::io;
use std::io::Write;

const BITS: [(u8, &[u8]); 8] = [
    (Status::WAIT, b" WAIT"),
    (Status::IWAT, b" IWAT"),
    (Status::BIT5, b" bit 5"),
    (Status::INTQ, b" INTQ"),
    (Status::DEBUG, b" DEBUG"),
    (Status::MROB, b" MROB"),
    (Status::MHBS, b" MHBS"),
    (Status::TCBB, b" TCBB"),
];

fn margin(marked: bool) -> &'static str {
    if marked { ">>" } else { "  " }
}

// R1 and R3, which name no record, are of these bytes, and R7, whose byte 1 may name no task.
fn show_first_bytes<W: Write>(out: &mut W, l: Lent<'_>, marked: bool) -> io::Result<()> {
    writeln!(
        out,
        "{} first task of the task queue (byte 0): {}; bytes 1 to 3: {:02X}H {:02X}H {:02X}H",
        margin(marked),
        byte(l.bytes, 0),
        byte(l.bytes, 1),
        byte(l.bytes, 2),
        byte(l.bytes, 3),
    )
}

fn show_bits<W: Write>(out: &mut W, s: Status) -> io::Result<()> {
    if s.byte() == 0 {
        return write!(out, " none");
    }
    tell_bits(out, s, &BITS)
}

fn show_task<W: Write>(out: &mut W, l: Lent<'_>, k: u16, marked: bool) -> io::Result<()> {
    let t = task_meant(l, k);
    // ten zero bytes: so R2 wants the record of a task that is not there
    if !t.present() && good_task(t) {
        return Ok(());
    }
    write!(
        out,
        "{}{k:8}   {:02X}H   {:02X}H{:7}{:7}  {:04X}H{} ",
        margin(marked),
        t.stat.byte(),
        t.prio,
        t.link,
        t.mptr,
        t.sptr,
        Name(t.name),
    )?;
    show_bits(out, t.stat)?;
    writeln!(out)
}

// At a task, which may not be there.
fn show_at<W: Write>(out: &mut W, l: Lent<'_>, words: &str, k: TaskNo) -> io::Result<()> {
    write!(out, "{words} task {}", k.number())?;
    if !l.task(k).present() {
        write!(out, ", which is absent")?;
    }
    Ok(())
}

fn show_place<W: Write>(out: &mut W, l: Lent<'_>, p: Place) -> io::Result<()> {
    match p {
        Place::Free => write!(out, "free"),
        Place::HeldBy(k) => show_at(out, l, "held by", k),
        Place::QueuedAt(k) => show_at(out, l, "queued at", k),
        Place::OnTimer => write!(out, "on the timer"),
        Place::Nowhere(b) => write!(out, "names no task: {b:02X}H"),
    }
}

fn show_message<W: Write>(out: &mut W, l: Lent<'_>, m: u16, marked: bool) -> io::Result<()> {
    let u = message_meant(l, m);
    let p = place_meant(l, m);
    if matches!(p, Place::Free) && zero_message(u) {
        return Ok(());
    }
    write!(
        out,
        "{}{m:8}   {:02X}H   {:02X}H{:7}{:7}{:7}  ",
        margin(marked),
        u.stat,
        u.prio,
        u.link,
        u.rptr,
        u.sptr,
    )?;
    show_place(out, l, p)?;
    writeln!(out)
}

// A row for each number up to the last, of which one may be marked.
fn show_table<W: Write, F: FnMut(&mut W, u16, bool) -> io::Result<()>>(
    out: &mut W,
    head: &str,
    last: u16,
    marked: Option<u16>,
    mut row: F,
) -> io::Result<()>
    requires { F.IsAlwaysCallable row }
{
    writeln!(out, "\n{head}")?;
    for n in 1..=last {
        row(out, n, marked == Some(n))?;
    }
    Ok(())
}

// The task or the message that breaks the rule; neither, where bytes 0 to 3 do.
fn breaker(r: Rule) -> (Option<u16>, Option<u16>) {
    match r {
        Rule::R2(k) | Rule::R5(k) | Rule::R6(k) => (Some(k.number()), None),
        Rule::R4(m) => (None, Some(m.number())),
        Rule::R1 | Rule::R3 | Rule::R7(_) => (None, None),
    }
}

// All records, with that one marked which breaks the rule.
pub(crate) fn show_records<W: Write>(out: &mut W, l: Lent<'_>, r: Rule) -> io::Result<()> {
    let (task, message) = breaker(r);
    show_first_bytes(out, l, task.is_none() && message.is_none())?;
    let head = "      task  STAT  PRIO   LINK   MPTR  SPTR   name        bits of STAT";
    show_table(out, head, l.size.tasks, task, |out, k, marked| {
        show_task(out, l, k, marked)
    })?;
    let head = "   message  STAT  PRIO   LINK   RPTR   SPTR  place";
    show_table(out, head, l.size.messages, message, |out, m, marked| {
        show_message(out, l, m, marked)
    })
}
