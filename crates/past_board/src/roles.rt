// The parts that tasks have in a history, read off the board that it ends in: who fills the queues, who is a guest, who claims a
// message; and whether a message is on the timer, where none of the nineteen calls puts one.
use board::numbers::Number;
use board::places::Place;
use board::records::{Message, Task};
use lent::by_word::{is_timed, message_meant, place_meant, task_meant};
use lent::bytes::Lent;

// The board that a history ends in, which task runs on it, and who fills its queues.
#[derive(Clone, Copy)]
pub(crate) struct Roles<'a> {
    pub(crate) board: Lent<'a>,
    pub(crate) runs: Option<u16>,
    pub(crate) filler: Option<u16>,
}

// Who fills the queues: the running task. Where no task runs it is the first by number that has a queue, which waits for an
// interrupt.
fn who_fills(l: Lent<'_>, runs: Option<u16>) -> Option<u16> {
    runs.or_else(|| (1..=32).find(|k| task_meant(l, *k).mptr != 0))
}

// The lowest message that is on the timer.
pub(crate) fn first_timed(l: Lent<'_>) -> Option<u16> {
    (1..=128).find(|m| is_timed(l, *m))
}

impl<'a> Roles<'a> {
    pub(crate) fn on(board: Lent<'a>, runs: Option<u16>) -> Roles<'a> {
        let filler = who_fills(board, runs);
        Roles {
            board,
            runs,
            filler,
        }
    }

    pub(crate) fn task(self, k: u16) -> Task {
        task_meant(self.board, k)
    }

    pub(crate) fn message(self, m: u16) -> Message {
        message_meant(self.board, m)
    }

    fn place(self, m: u16) -> Place {
        place_meant(self.board, m)
    }

    pub(crate) fn is_free(self, m: u16) -> bool {
        matches!(self.place(m), Place::Free)
    }

    // A guest is an absent task that a message was sent to: RPTR still names it.
    pub(crate) fn is_guest(self, k: u16) -> bool {
        !self.task(k).present() && (1..129).any(|m| self.message(m).rptr == k)
    }

    // Who claims a message that ends in this place: its holder, or who fills the queues; nobody where it is free.
    fn claims(self, p: Place) -> Option<u16> {
        match p {
            Place::HeldBy(k) => Some(k.number()),
            Place::QueuedAt(_) => self.filler,
            _ => None,
        }
    }

    // Who claims message m: of a free one it is who claims the next that is not. Where all behind it are free, none is claimed.
    // The range has an open end, here and for guests: by a closed one a board of one task takes up to 15 % more instructions.
    pub(crate) fn claimer(self, m: u16) -> Option<u16> {
        (m..129).find_map(|n| self.claims(self.place(n)))
    }
}
