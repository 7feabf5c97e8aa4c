// The first ready task, looked for alone: dispatch asks for it where the task that ran is no longer ready.
ghost use Rattle.std.specs.Prelude.{◌≡◌};
ghost use Rattle.lent.specs.Lent.{board};
ghost use Rattle.board.specs.Numbers.{task_meant};
ghost use Rattle.paper.specs.Rules.{first_ready};

use board::numbers::TaskNo;
use lent::bytes::Lent;

// The first ready task in queue order, if any.
pub fn first_ready(l: Lent<'_>) -> Option<TaskNo>
    ensures { result ≡ task_meant l.entry.size (first_ready l.entry.size (board l.entry)) }
{
    let mut who = l.first_task();
    for _seen in 0..l.size.messages {
        let k = who?;
        let t = l.task(k);
        if t.ready() {
            return who;
        }
        who = t.next(l.size);
    }
    None
}
