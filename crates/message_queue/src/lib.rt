// CODE. The queue of a task on lent bytes: a message goes in at its spot, or is taken out. A move stores two words; that this is the queue
// that the definitions relink whole is proved (stored).
#![tactic(auto)]

ghost use Rattle.lent.specs.Lent.{Becomes};
ghost use Rattle.board.specs.Numbers.{number_of_message};
ghost use Rattle.stores.specs.Moves.{behind, queue_into, queue_out};

use crate::seek::{spot_for_message, spot_of_message};
use board::numbers::{MsgNo, TaskNo};
use board::priority::{fifo, number, with_fifo};
use board::records::Message;
use changes::{link_message, set_mptr};
use lent::bytes::LentMut;

pub mod seek;

// What stands behind prev in the queue of r is x: its first where prev is none.
// No trait says this and the moves of both kinds of queue: its ghost members and laws are more than the few lines saved.
fn put_behind(l: &mut LentMut<'_>, r: TaskNo, prev: Option<MsgNo>, x: Option<MsgNo>)
    ensures { Becomes l.old l.new (behind l.old.size l.old.bytes.now r.0 prev (number_of_message x)) }
{
    match prev {
        Some(m) => link_message(l, m, x),
        None => set_mptr(l, r, x),
    }
}

// Message m becomes u with bit 0 of PRIO set, and goes into the queue of r where the priority and queue type of u put it.
pub fn into_queue(l: &mut LentMut<'_>, m: MsgNo, u: Message, r: TaskNo)
    ensures { Becomes l.old l.new (queue_into l.old.size l.old.bytes.now m.0 u r.0) }
{
    let at = spot_for_message(l.read(), r, fifo(u.prio), number(u.prio));
    let marked = u.with_prio(with_fifo(u.prio));
    l.put_message(m, marked.with_link(at.cur));
    put_behind(l, r, at.prev, Some(m));
}

// Message m is taken out of the queue of r.
pub fn out_of_queue(l: &mut LentMut<'_>, m: MsgNo, r: TaskNo)
    ensures { Becomes l.old l.new (queue_out l.old.size l.old.bytes.now m.0 r.0) }
{
    let at = spot_of_message(l.read(), r, m);
    put_behind(l, r, at.prev, l.read().next_message(m));
}
