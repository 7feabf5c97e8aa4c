// PROGRAM. A board from standard input as tables: the totals, then the tasks in queue order, each with its state, what it holds
// and what is queued at it, and the messages on the timer. Of a board that breaks a rule the refusal is told, and its records are
// shown by their numbers; of bytes of another length the refusal alone. Where descriptor 3 is open, a timer buffer is read there,
// and told when its messages are due; or it is refused and shown as it is stored.
#![tactic(auto)]

mod lists;
mod on_timer;
mod records;
mod words;

use board::numbers::{Number, Size, TaskNo};
use board::priority::number;
use board::records::Task;
use board::status::Status;
use lent::bytes::{Lent, no_tasks};
use lists::{show_held, show_queue};
use on_timer::{show_stored, show_timer};
use paper::answer::Refusal;
use records::show_records;
use std::io;
use std::io::Write;
use std::rt::Files;
use telling::finding::{judged, tell_running};
use telling::input::read_full;
use telling::output::Pieces;
use telling::state::{print_state, state_of};
use telling::timer_buffer::{Timer, is_lent, read_timer, timer_judged};
use telling::totals::{tell_blocks, tell_installed};
use telling::walks::tasks;
use words::{Name, tell_bits};

const FLAGS: [(u8, &[u8]); 3] = [
    (Status::INTQ, b", an interrupt is posted (INTQ)"),
    (Status::DEBUG, b", being debugged (DEBUG)"),
    (Status::MROB, b", main registers only (MROB)"),
];

fn show_totals<W: Write>(out: &mut W, l: Lent<'_>, runs: u16) -> io::Result<()> {
    tell_installed(out, l)?;
    write!(out, "; ")?;
    tell_running(out, runs)?;
    writeln!(out)?;
    tell_blocks(out, l)?;
    writeln!(out)
}

fn show_task<W: Write>(out: &mut W, k: TaskNo, t: Task, runs: bool) -> io::Result<()> {
    let mark = if runs { '>' } else { ' ' };
    write!(
        out,
        "{mark}{:5}{}{:10}  {:04X}H  ",
        k.number(),
        Name(t.name),
        number(t.prio),
        t.sptr,
    )?;
    print_state(out, state_of(t.stat, runs))?;
    tell_bits(out, t.stat, &FLAGS)?;
    writeln!(out)
}

// The tasks in queue order.
fn show_tasks<W: Write>(out: &mut W, l: Lent<'_>, runs: u16) -> io::Result<()> {
    writeln!(out, "\n  task  name        priority  SPTR   state")?;
    for (k, t) in tasks(l) {
        show_task(out, k, t, k.number() == runs)?;
        show_held(out, l, k)?;
        show_queue(out, l, k, t.first(l.size))?;
    }
    Ok(())
}

// A board that passes, and the timer buffer for it, where there is one.
fn show_board<W: Write>(out: &mut W, l: Lent<'_>, runs: u16, s: Option<&Timer>) -> io::Result<()> {
    show_totals(out, l, runs)?;
    if !no_tasks(l.bytes) {
        show_tasks(out, l, runs)?;
    }
    show_timer(out, l, s)
}

// The same with the buffer s, which may not be one for it.
fn show_with<W: Write>(out: &mut W, l: Lent<'_>, runs: u16, s: &[u8]) -> io::Result<()> {
    let good = timer_judged(out, l, s)?;
    let s = <&Timer>::try_from(s).ok();
    if good {
        return show_board(out, l, runs, s);
    }
    show_board(out, l, runs, None)?;
    if let Some(s) = s {
        show_stored(out, s)?;
    }
    Ok(())
}

// The buffer is read for a board that passes alone.
fn show_passing<R: Files, W: Write>(rt: &R, out: &mut W, l: Lent<'_>, runs: u16) -> io::Result<()> {
    let mut space = [0u8; 65536];
    let n = read_timer(&mut space);
    if is_lent(rt, n)? {
        return show_with(out, l, runs, &space[..n]);
    }
    show_board(out, l, runs, None)
}

fn show<R: Files, W: Write>(rt: &R, out: &mut W, l: &[u8]) -> io::Result<()> {
    let found = judged(out, l)?;
    // the readers want to see a whole board; bytes of another length were refused with 1
    let Some(l) = Lent::of(Size::SMALL, l) else {
        return Ok(());
    };
    match found {
        Ok(runs) => show_passing(rt, out, l, runs),
        Err(Refusal::RuleBroken(r)) => show_records(out, l, r),
        Err(_) => Ok(()),
    }
}

fn main(rt: HostRuntime) -> io::Result<()> {
    let mut out = Pieces::of(rt.stdout());
    let mut space = [0u8; 65536];
    let n = read_full(&mut rt.stdin(), &mut space)?;
    show(&rt, &mut out, &space[..n])?;
    out.flush()
}
