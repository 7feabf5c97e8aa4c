// The walks along the links of a board: the tasks in queue order, and the messages of a queue in its order, each number with its
// record.
ghost use Rattle.std.specs.Prelude.{◌≡◌, ◌+◌, OnSome, Option};
ghost use Rattle.std.specs.Iterator.{at_most};
ghost use Rattle.board.specs.declared.numbers.Size.{Size};
ghost use Rattle.board.specs.Numbers.{task_meant, message_meant};
ghost use Rattle.board.specs.Board.{task, message};
ghost use Rattle.lent.specs.declared.bytes.Lent.{Lent};
ghost use Rattle.lent.specs.Lent.{board};

use board::numbers::{MsgNo, Size, TaskNo};
use board::records::{Message, Task};
use lent::bytes::Lent;

// A number on the board, and the next that its record links to.
pub trait Linked: Copy {
    type Record: Copy;

    ghost read: { Lent → Self → Self.Record };

    ghost next_of: { Size → Self.Record → Option Self };

    fn record(self, l: Lent<'_>) -> Self::Record
        ensures { result ≡ read l.entry self };

    fn next_of(z: Size, u: Self::Record) -> Option<Self>
        ensures { result ≡ next_of z u };
}

impl Linked for TaskNo {
    type Record = Task;

    ghost read = { λ l k. task (board l) k.0 };

    ghost next_of = { λ z t. task_meant z t.link };

    fn record(self, l: Lent<'_>) -> Task {
        l.task(self)
    }

    fn next_of(z: Size, t: Task) -> Option<TaskNo> {
        t.next(z)
    }
}

impl Linked for MsgNo {
    type Record = Message;

    ghost read = { λ l m. message (board l) m.0 };

    ghost next_of = { λ z u. message_meant z u.link };

    fn record(self, l: Lent<'_>) -> Message {
        l.message(self)
    }

    fn next_of(z: Size, u: Message) -> Option<MsgNo> {
        u.next(z)
    }
}

// The links of a board that breaks a rule may lead in a circle, so that no more than so many come.
#[derive(Drop)]
pub struct Walk<'a, N> {
    board: Lent<'a>,
    next: Option<N>,
    pub left: u16,
}

impl<'a, N: Linked> Iterator for Walk<'a, N> {
    type Item = (N, N::Record);

    ghost next_gives = { λ s r t. OnSome r (t.left + 1 ≡ s.left) };

    ghost remaining = { λ s. at_most s.left };

    fn next(&mut self) -> Option<(N, N::Record)> {
        if self.left == 0 {
            return None;
        }
        self.left -= 1;
        let n = self.next?;
        let u = n.record(self.board);
        self.next = N::next_of(self.board.size, u);
        Some((n, u))
    }
}

// The tasks in queue order. The small board, if it passes, has no more than 32.
pub fn tasks(l: Lent<'_>) -> Walk<'_, TaskNo>
    ensures { result.left ≡ 32 }
{
    Walk {
        board: l,
        next: l.first_task(),
        left: 32,
    }
}

// The messages of a queue in its order, from its first. It has no more than the 128 blocks of the small board.
pub fn queue(l: Lent<'_>, first: Option<MsgNo>) -> Walk<'_, MsgNo>
    ensures { result.left ≡ 128 }
{
    Walk {
        board: l,
        next: first,
        left: 128,
    }
}
