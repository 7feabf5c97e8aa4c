// A history while it is told: what it is written to, the board that its calls have left so far, and one more call, which is told
// and made.
use crate::cases::{write_case, write_fresh};
use paper::call::Call;
use station::{fresh, step};
use std::io::Write;
use std::{fmt, io};
use telling::call::tell_call;
use telling::print::thousands;

// How a history is told: in words, or as cases that run_cases takes.
#[derive(Clone, Copy, PartialEq, Eq)]
pub(crate) enum Form {
    Words,
    Cases,
}

// The groups of calls, in the order of a history, each with a heading.
#[derive(Clone, Copy)]
pub(crate) enum Group {
    Tasks,
    Guests,
    Messages,
    Free,
    Gone,
    Waiting,
    Runs,
    Ready,
    Queues,
    Rests,
    Posted,
}

impl fmt::Display for Group {
    fn fmt<W: fmt::Write>(&self, f: &mut fmt::Formatter<W>) -> fmt::Result {
        f.write_str(match self {
            Group::Tasks => "the tasks, in queue order; each then waits for an interrupt",
            Group::Guests => "tasks that messages were sent to and that are gone since",
            Group::Messages => {
                "the messages, each with its fields; one with a receiver is sent there and taken back"
            }
            Group::Free => "the messages that are free again",
            Group::Gone => "the tasks that are gone since",
            Group::Waiting => {
                "the tasks that wait for a message, or did until one was queued (MHBS)"
            }
            Group::Runs => "the task that runs from here on",
            Group::Ready => "the other tasks that are ready",
            Group::Queues => "the queues, front to back",
            Group::Rests => "it waits for an interrupt again, and no task runs",
            Group::Posted => "the interrupts that are queued (INTQ)",
        })
    }
}

// The board is what the calls so far leave, and due the group whose heading stands before the next.
#[derive(Drop)]
pub(crate) struct History<'a, W> {
    out: &'a mut W,
    form: Form,
    board: [u8; 1476],
    calls: u64,
    accepted: bool,
    due: Option<Group>,
}

impl<'a, W: Write> History<'a, W> {
    // A fresh board, and no call yet.
    pub(crate) fn begun(out: &'a mut W, form: Form) -> io::Result<History<'a, W>> {
        let mut board = [0u8; 1476];
        let accepted = fresh(&mut board).is_ok();
        if form == Form::Cases {
            write_fresh(out, &board)?;
        }
        Ok(History {
            out,
            form,
            board,
            calls: 0,
            accepted,
            due: None,
        })
    }

    // The next calls are of this group.
    pub(crate) fn begin(&mut self, group: Group) {
        self.due = Some(group);
    }

    // The call in words, or as a case with the board before it.
    fn tell(&mut self, call: Call) -> io::Result<()> {
        if self.form == Form::Cases {
            return write_case(self.out, call, &self.board);
        }
        if let Some(group) = self.due {
            writeln!(self.out, "# {group}")?;
        }
        tell_call(self.out, call)?;
        writeln!(self.out)
    }

    // The call is told, and made on the board. Of calls there are too few for their number to wrap.
    pub(crate) fn make(&mut self, call: Call) -> io::Result<()> {
        self.tell(call)?;
        let answer = step(&mut self.board, call);
        self.accepted = self.accepted && answer.is_ok();
        self.calls = self.calls.wrapping_add(1);
        self.due = None;
        Ok(())
    }

    pub(crate) fn post(&mut self, k: u16) -> io::Result<()> {
        self.make(Call::PostInterrupt { k })
    }

    // The last line: whether all calls were accepted, and whether they left the board l. Cases have one where they fail.
    pub(crate) fn end(&mut self, l: &[u8]) -> io::Result<()> {
        if !self.accepted {
            return writeln!(self.out, "# error: one of these calls is refused");
        }
        if self.board.as_slice() != l {
            return writeln!(self.out, "# error: these calls leave another board");
        }
        if self.form == Form::Cases {
            return Ok(());
        }
        write!(self.out, "# ")?;
        thousands(self.out, self.calls)?;
        writeln!(self.out, " calls from a fresh board leave this very board")
    }
}
