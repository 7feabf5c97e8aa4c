// Task and message records by value (manual 3.2 and 3.3): a record says where its links lead, and hands back itself with one
// field changed. A link goes in and comes out as the task or message it means; a word of SPTR or NAME is any word.
ghost use Rattle.std.specs.Prelude.{◌≡◌};
ghost use Rattle.board.specs.Numbers.{task_meant, message_meant, number_of_task, number_of_message};
ghost use Rattle.board.specs.Status.{is_present, is_ready, stored};
ghost use Rattle.board.specs.Records.{no_task, no_message, task_with_stat, task_with_link, task_with_mptr, with_stat, with_prio};
ghost use Rattle.board.specs.Records.{with_link, with_rptr, with_sptr};

use crate::numbers::{MsgNo, Number, Size, TaskNo};
use crate::status::Status;

#[derive(Clone, Copy, Debug, Default, PartialEq, Eq)]
pub struct Task {
    pub stat: Status,
    pub prio: u8,
    pub link: u16,
    pub mptr: u16,
    pub sptr: u16,
    pub name: u16,
}

#[derive(Clone, Copy, Debug, Default, PartialEq, Eq)]
pub struct Message {
    pub stat: u8,
    pub prio: u8,
    pub link: u16,
    pub rptr: u16,
    pub sptr: u16,
}

impl Task {
    // The record of no task: ten zero bytes.
    pub fn none() -> Task
        ensures { result ≡ no_task }
    {
        Task::default()
    }

    pub fn present(self) -> bool
        ensures { result ≡ is_present self.stat }
    {
        self.stat.present()
    }

    pub fn ready(self) -> bool
        ensures { result ≡ is_ready self.stat }
    {
        self.stat.ready()
    }

    pub fn with_stat(mut self, s: Status) -> Task
        ensures { result ≡ task_with_stat self s }
    {
        self.stat = s;
        self
    }

    // The next task of the task queue: LINK.
    pub fn next(self, z: Size) -> Option<TaskNo>
        ensures { result ≡ task_meant z self.link }
    {
        TaskNo::meant(z, self.link)
    }

    // The first message of its queue: MPTR.
    pub fn first(self, z: Size) -> Option<MsgNo>
        ensures { result ≡ message_meant z self.mptr }
    {
        MsgNo::meant(z, self.mptr)
    }

    pub fn with_link(mut self, next: Option<TaskNo>) -> Task
        ensures { result ≡ task_with_link self (number_of_task next) }
    {
        self.link = next.number();
        self
    }

    pub fn with_mptr(mut self, m: Option<MsgNo>) -> Task
        ensures { result ≡ task_with_mptr self (number_of_message m) }
    {
        self.mptr = m.number();
        self
    }
}

impl Message {
    // The record of no message: eight zero bytes.
    pub fn none() -> Message
        ensures { result ≡ no_message }
    {
        Message::default()
    }

    pub fn with_stat(mut self, s: u8) -> Message
        ensures { result ≡ with_stat self s }
    {
        self.stat = s;
        self
    }

    pub fn with_prio(mut self, p: u8) -> Message
        ensures { result ≡ with_prio self p }
    {
        self.prio = p;
        self
    }

    // The next message of the queue: LINK.
    pub fn next(self, z: Size) -> Option<MsgNo>
        ensures { result ≡ message_meant z self.link }
    {
        MsgNo::meant(z, self.link)
    }

    pub fn with_link(mut self, next: Option<MsgNo>) -> Message
        ensures { result ≡ with_link self (number_of_message next) }
    {
        self.link = next.number();
        self
    }

    pub fn with_rptr(mut self, r: TaskNo) -> Message
        ensures { result ≡ with_rptr self r.0 }
    {
        self.rptr = r.number();
        self
    }

    pub fn with_sptr(mut self, w: u16) -> Message
        ensures { result ≡ with_sptr self w }
    {
        self.sptr = w;
        self
    }
}
