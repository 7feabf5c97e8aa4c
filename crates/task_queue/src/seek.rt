// A spot in the task queue: where a priority goes, or where a task stands.
ghost use Rattle.std.specs.Prelude.{◌≡◌, true};
ghost use Rattle.links.specs.Queue.{goes_before};
ghost use Rattle.stores.specs.Moves.{spot_for_task, spot_of_task};
ghost use Rattle.task_queue.specs.Spots.{task_spot};

use board::numbers::TaskNo;
use board::priority::number;
use changes::spot::{Spot, seek};
use lent::bytes::Lent;

// One of priority number p goes before one of number x: behind its equals.
fn goes_first(p: u8, x: u8) -> bool
    ensures { result ≡ goes_before true p x }
{
    p < x
}

// Where a task of priority number p goes in the task queue: behind its equals.
pub fn spot_for_task(l: Lent<'_>, p: u8) -> Spot<TaskNo>
    ensures { result ≡ task_spot l.entry.size (spot_for_task l.entry.size l.entry.bytes.now p) }
{
    seek(
        l.size.messages,
        l.first_task(),
        |k| l.task(k).next(l.size),
        |k| goes_first(p, number(l.task(k).prio)),
    )
}

// Where the task x stands in the task queue.
pub fn spot_of_task(l: Lent<'_>, x: TaskNo) -> Spot<TaskNo>
    ensures { result ≡ task_spot l.entry.size (spot_of_task l.entry.size l.entry.bytes.now x.0) }
{
    seek(
        l.size.messages,
        l.first_task(),
        |k| l.task(k).next(l.size),
        |k| k == x,
    )
}
