// PROGRAM. A board from standard input, and a history of it: calls which, made from the fresh board, leave these very bytes. A
// call stands in words on a line of its own, a group of calls under a heading. They are made as they are told, and the last line
// says that all were accepted and left this board. With --cases they are written as cases that run_cases takes, each with the
// board before it; with --each there are several boards, one behind the other. A board that the check refuses has no history; its
// refusal is told. One with a message on the timer has none of these calls alone, and that is told.
#![tactic(auto)]

mod cases;
mod history;
mod messages;
mod past;
mod roles;
mod tasks;

use board::numbers::Size;
use history::{Form, History};
use lent::bytes::Lent;
use past::make_past;
use roles::{Roles, first_timed};
use std::env::Env;
use std::io;
use std::io::{Read, Write};
use telling::finding::judged;
use telling::input::read_full;
use telling::output::Pieces;

// How the program is asked: for one board in this form, or for several in words.
#[derive(Clone, Copy)]
enum Way {
    One(Form),
    Each,
}

fn tell_timed<W: Write>(out: &mut W, m: u16) -> io::Result<()> {
    writeln!(
        out,
        "message {m} is on the timer: no history of the nineteen calls alone makes this board"
    )
}

// The history of a board without messages on the timer.
fn tell_calls<W: Write>(out: &mut W, roles: Roles, form: Form) -> io::Result<()> {
    let mut history = History::begun(out, form)?;
    make_past(&mut history, roles)?;
    history.end(roles.board.bytes)
}

fn tell_past<W: Write>(out: &mut W, l: &[u8], form: Form) -> io::Result<()> {
    let found = judged(out, l)?;
    let Ok(runs) = found else {
        return Ok(());
    };
    // what passes is whole: the readers want to see it
    let Some(board) = Lent::of(Size::SMALL, l) else {
        return Ok(());
    };
    if let Some(m) = first_timed(board) {
        return tell_timed(out, m);
    }
    // the check answers 0 where no task runs
    let runs = Some(runs).filter(|k| *k != 0);
    tell_calls(out, Roles::on(board, runs), form)
}

fn one_board<R: Read, W: Write>(input: &mut R, out: &mut W, form: Form) -> io::Result<()> {
    let mut space = [0u8; 65536];
    let n = read_full(input, &mut space)?;
    tell_past(out, &space[..n], form)
}

// The next of several boards; false where there is none. Each is told before the next is read.
fn next_board<R: Read, W: Write>(input: &mut R, out: &mut W) -> io::Result<bool> {
    let mut space = [0u8; 1476];
    let n = read_full(input, &mut space)?;
    if n == 0 {
        return Ok(false);
    }
    tell_past(out, &space[..n], Form::Words)?;
    out.flush()?;
    Ok(true)
}

fn each_board<R: Read, W: Write>(input: &mut R, out: &mut W) -> io::Result<()> {
    for _ in 0..u64::MAX {
        if !next_board(input, out)? {
            break;
        }
    }
    Ok(())
}

fn way_of(word: &[u8]) -> Option<Way> {
    match word {
        b"" => Some(Way::One(Form::Words)),
        b"--cases" => Some(Way::One(Form::Cases)),
        b"--each" => Some(Way::Each),
        _ => None,
    }
}

// By its first argument. One that is longer than any option is none.
fn way_asked(rt: &impl Env) -> Option<Way> {
    let mut word = [0u8; 4096];
    let Ok(n) = rt.arg(1, &mut word) else {
        return Some(Way::One(Form::Words));
    };
    way_of(&word[..n])
}

fn main(rt: HostRuntime) -> io::Result<()> {
    let mut out = Pieces::of(rt.stdout());
    let mut input = rt.stdin();
    match way_asked(&rt) {
        Some(Way::One(form)) => one_board(&mut input, &mut out, form)?,
        Some(Way::Each) => each_board(&mut input, &mut out)?,
        None => writeln!(out, "error: the options are --cases and --each")?,
    }
    out.flush()
}
