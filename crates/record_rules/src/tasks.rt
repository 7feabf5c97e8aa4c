// A task's record: R2 asks for ten zeros or a present task, R6 for flags that agree.
ghost use Rattle.std.specs.Prelude.{◌≡◌};
ghost use Rattle.paper.specs.Rules.{zero_task, task_prio, good_head, good_task, good_flags};

use board::priority::fifo;
use board::records::Task;
use board::status::Status;

fn zero_task(t: Task) -> bool
    ensures { result ≡ zero_task t }
{
    // field by field: `==` with the record of zeros is slower
    t.stat.byte() == 0 && t.prio == 0 && t.link == 0 && t.mptr == 0 && t.sptr == 0 && t.name == 0
}

// A priority that a task may have, odd.
pub fn task_prio(p: u8) -> bool
    ensures { result ≡ task_prio p }
{
    fifo(p) && 0x03 <= p && p <= 0xFD
}

fn good_head(s: Status, p: u8) -> bool
    ensures { result ≡ good_head s p }
{
    s.has(Status::TCBB) && !s.has(Status::BIT5) && task_prio(p)
}

pub fn good_task(t: Task) -> bool
    ensures { result ≡ good_task t }
{
    if t.present() {
        good_head(t.stat, t.prio)
    } else {
        zero_task(t)
    }
}

pub fn good_flags(s: Status, empty: bool) -> bool
    ensures { result ≡ good_flags s empty }
{
    let due = s.has(Status::MHBS);
    if s.has(Status::WAIT) {
        empty && !due && !s.has(Status::IWAT)
    } else if s.has(Status::IWAT) {
        !due && !s.has(Status::INTQ)
    } else {
        !(due && empty)
    }
}
