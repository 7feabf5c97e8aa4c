// PROGRAM. A board from standard input as a picture (SVG): a row for each task in queue order, with its box, its queue as boxes
// linked by arrows, and what it holds set below; and a row for the timer with the messages on it. Where descriptor 3 is open, a
// timer buffer is read there, and each has in how many ticks it is due. A board or a buffer that is refused is not drawn; its
// refusal is told.
#![tactic(auto)]

mod boxes;
mod on_timer;
mod page;
mod rows;

use board::numbers::{Number, Size};
use board::places::Place;
use boxes::{draw_held, draw_queue};
use lent::bytes::Lent;
use on_timer::draw_on_timer;
use page::{draw_foot, draw_head, draw_row, draw_task, end_row};
use rows::{TOP, foot, row_height, rows_at, timer_height};
use std::io;
use std::io::Write;
use std::rt::Files;
use telling::finding::judged;
use telling::input::read_full;
use telling::output::Pieces;
use telling::timer_buffer::{Timer, is_lent, read_timer, timer_judged};
use telling::walks::tasks;

// The tasks in queue order, each below the one before.
fn draw_tasks<W: Write>(out: &mut W, l: Lent<'_>, runs: u16) -> io::Result<()> {
    let mut y = TOP;
    for (k, t) in tasks(l) {
        let high = row_height(l, k);
        draw_row(out, y, high - 6)?;
        draw_task(out, k, t, k.number() == runs)?;
        draw_queue(out, l, t.first(l.size))?;
        draw_held(out, l, k, rows_at(l, Place::QueuedAt(k)))?;
        end_row(out)?;
        y += high;
    }
    Ok(())
}

// A board that passes, and the timer buffer for it, where there is one.
fn draw_board<W: Write>(out: &mut W, l: Lent<'_>, runs: u16, s: Option<&Timer>) -> io::Result<()> {
    let y = foot(l);
    let timer = timer_height(l, s);
    let end = y + timer.unwrap_or(0);
    draw_head(out, l, runs, end)?;
    draw_tasks(out, l, runs)?;
    if let Some(high) = timer {
        draw_on_timer(out, l, s, y, high)?;
    }
    draw_foot(out, l, end)
}

// The buffer is read for a board that passes alone.
fn draw_passing<R: Files, W: Write>(rt: &R, out: &mut W, l: Lent<'_>, runs: u16) -> io::Result<()> {
    let mut space = [0u8; 65536];
    let n = read_timer(&mut space);
    if !is_lent(rt, n)? {
        return draw_board(out, l, runs, None);
    }
    let s = &space[..n];
    if timer_judged(out, l, s)? {
        draw_board(out, l, runs, <&Timer>::try_from(s).ok())?;
    }
    Ok(())
}

fn draw<R: Files, W: Write>(rt: &R, out: &mut W, l: &[u8]) -> io::Result<()> {
    let Ok(runs) = judged(out, l)? else {
        return Ok(());
    };
    // what passes is whole: the readers want to see it
    let Some(l) = Lent::of(Size::SMALL, l) else {
        return Ok(());
    };
    draw_passing(rt, out, l, runs)
}

fn main(rt: HostRuntime) -> io::Result<()> {
    let mut out = Pieces::of(rt.stdout());
    let mut space = [0u8; 65536];
    let n = read_full(&mut rt.stdin(), &mut space)?;
    draw(&rt, &mut out, &space[..n])?;
    out.flush()
}
