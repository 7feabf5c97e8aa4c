// The size of a board, and the two kinds of numbers. A task number or a message number is made after its range test only, so a
// link, a place or an argument that names nothing never becomes one; and one kind is never taken for the other.
ghost use Rattle.std.specs.Prelude.{◌≡◌, ℕ, cond, Some, None};
ghost use Rattle.board.specs.Numbers.{outside, task_meant, message_meant, stored};

// How many tasks and messages a board has.
#[derive(Clone, Copy, Debug, PartialEq, Eq)]
pub struct Size {
    pub tasks: u16,
    pub messages: u16,
}

impl Size {
    pub const SMALL: Size = Size {
        tasks: 32,
        messages: 128,
    };
}

// The number of a task, from 1.
#[derive(Clone, Copy, Debug, PartialEq, Eq)]
pub struct TaskNo(u16);

// The number of a message, from 1.
#[derive(Clone, Copy, Debug, PartialEq, Eq)]
pub struct MsgNo(u16);

// What is stored for a number: a link is the number of the task or message that it leads to, and 0 where it leads to none.
pub trait Number {
    ghost number: { Self → ℕ };

    fn number(self) -> u16
        ensures { result ≡ number self };
}

impl Number for TaskNo {
    ghost number = { λ k. k.0 };

    fn number(self) -> u16 {
        self.0
    }
}

impl Number for MsgNo {
    ghost number = { λ m. m.0 };

    fn number(self) -> u16 {
        self.0
    }
}

impl<N: Number> Number for Option<N> {
    ghost number = { stored N.number };

    fn number(self) -> u16 {
        match self {
            Some(n) => n.number(),
            None => 0,
        }
    }
}

// The range test: the word itself where it is a number up to the last.
fn in_range(last: u16, w: u16) -> Option<u16>
    ensures { result ≡ cond (outside last w) None (Some w) }
{
    if w == 0 || last < w {
        return None;
    }
    Some(w)
}

impl TaskNo {
    // The task that a word means, if the board has it.
    pub fn meant(z: Size, w: u16) -> Option<TaskNo>
        ensures { result ≡ task_meant z w }
    {
        in_range(z.tasks, w).map(TaskNo)
    }
}

impl MsgNo {
    // The message that a word means, if the board has it.
    pub fn meant(z: Size, w: u16) -> Option<MsgNo>
        ensures { result ≡ message_meant z w }
    {
        in_range(z.messages, w).map(MsgNo)
    }
}
