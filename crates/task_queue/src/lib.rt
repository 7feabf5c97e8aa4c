// CODE. The task queue on lent bytes: a task goes in behind its equals, or is taken out. A move stores two words; that this is the queue
// that the definitions relink whole is proved (stored).
#![tactic(auto)]

ghost use Rattle.lent.specs.Lent.{Becomes};
ghost use Rattle.board.specs.Numbers.{number_of_task};
ghost use Rattle.stores.specs.Moves.{behind_task, order_into, order_out};

use crate::seek::{spot_for_task, spot_of_task};
use board::numbers::TaskNo;
use board::priority::number;
use board::records::Task;
use changes::link_task;
use lent::bytes::{LentMut, put_first_task};

pub mod seek;

// What stands behind prev in the task queue is x: its first where prev is none. Why no trait says it: see message_queue.
fn put_behind(l: &mut LentMut<'_>, prev: Option<TaskNo>, x: Option<TaskNo>)
    ensures { Becomes l.old l.new (behind_task l.old.size l.old.bytes.now prev (number_of_task x)) }
{
    match prev {
        Some(k) => link_task(l, k, x),
        None => put_first_task(l.bytes, x),
    }
}

// Task k becomes the record t, which goes into the task queue behind its equals.
pub fn into_order(l: &mut LentMut<'_>, k: TaskNo, t: Task)
    ensures { Becomes l.old l.new (order_into l.old.size l.old.bytes.now k.0 t) }
{
    let at = spot_for_task(l.read(), number(t.prio));
    l.put_task(k, t.with_link(at.cur));
    put_behind(l, at.prev, Some(k));
}

// Task k is taken out of the task queue.
pub fn out_of_order(l: &mut LentMut<'_>, k: TaskNo)
    ensures { Becomes l.old l.new (order_out l.old.size l.old.bytes.now k.0) }
{
    let at = spot_of_task(l.read(), k);
    put_behind(l, at.prev, l.read().task(k).next(l.size));
}
