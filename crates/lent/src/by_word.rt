// The record or place that a word means: an argument, a number that a loop counts. The word becomes a task or message number by
// its range test; one that names nothing of the board gives the record of zeros, or a place that is free. Each is a match: a
// closure for `map_or` would have to say the reader's contract again.
ghost use Rattle.std.specs.Prelude.{◌≡◌};
ghost use Rattle.board.specs.Places.{is_on_timer};
ghost use Rattle.board.specs.Board.{task, message, place};
ghost use Rattle.lent.specs.Lent.{board};

use crate::bytes::Lent;
use board::numbers::{MsgNo, TaskNo};
use board::places::Place;
use board::records::{Message, Task};

pub fn task_meant(b: Lent<'_>, w: u16) -> Task
    ensures { result ≡ task (board b.entry) w }
{
    match TaskNo::meant(b.size, w) {
        Some(k) => b.task(k),
        None => Task::none(),
    }
}

pub fn message_meant(b: Lent<'_>, w: u16) -> Message
    ensures { result ≡ message (board b.entry) w }
{
    match MsgNo::meant(b.size, w) {
        Some(m) => b.message(m),
        None => Message::none(),
    }
}

pub fn place_meant(b: Lent<'_>, w: u16) -> Place
    ensures { result ≡ place (board b.entry) w }
{
    match MsgNo::meant(b.size, w) {
        Some(m) => b.place(m),
        None => Place::Free,
    }
}

// The message is on the timer.
pub fn is_timed(b: Lent<'_>, w: u16) -> bool
    ensures { result ≡ is_on_timer (place (board b.entry) w) }
{
    match MsgNo::meant(b.size, w) {
        Some(m) => b.on_timer(m),
        None => false,
    }
}
