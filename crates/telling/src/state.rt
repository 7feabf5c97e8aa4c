// The state of a task in words, and the bits of its status.
ghost use Rattle.std.specs.Prelude.{◌≡◌, ◌≤◌, IfOk};
ghost use Rattle.board.specs.Status.{has};
ghost use Rattle.telling.specs.States.{state_of};

use crate::print::text;
use board::status::Status;
use std::io;
use std::io::Write;

#[derive(Clone, Copy)]
pub enum State {
    Running,
    Ready,
    HandedOver,
    Waits,
    WaitsForInterrupt,
}

pub fn state_of(s: Status, runs: bool) -> State
    ensures { result ≡ state_of s runs }
{
    if runs {
        return State::Running;
    }
    if s.has(Status::WAIT) {
        return State::Waits;
    }
    if s.has(Status::IWAT) {
        return State::WaitsForInterrupt;
    }
    if s.has(Status::MHBS) {
        return State::HandedOver;
    }
    State::Ready
}

// At most 41 columns.
pub fn print_state<W: Write>(out: &mut W, s: State) -> io::Result<usize>
    ensures { IfOk result (λ n. n ≤ 41) }
{
    match s {
        State::Running => text(out, b"running"),
        State::Ready => text(out, b"ready"),
        State::HandedOver => text(out, b"ready, a message to be handed over (MHBS)"),
        State::Waits => text(out, b"waits for a message (WAIT)"),
        State::WaitsForInterrupt => text(out, b"waits for an interrupt (IWAT)"),
    }
}

// Words for a bit, where it is set. Answers whether it is.
pub fn tell_bit<W: Write>(out: &mut W, s: Status, bit: u8, words: &[u8]) -> io::Result<bool>
    ensures { IfOk result (λ b. b ≡ has s bit) }
{
    let set = s.has(bit);
    if set {
        text(out, words)?;
    }
    Ok(set)
}
