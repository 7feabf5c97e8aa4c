// CODE. The changes that effects are made of (paper, Changes), on lent bytes: one bit, one field, one link, a message in a task's hands.
#![tactic(auto)]

ghost use Rattle.lent.specs.Lent.{Becomes};
ghost use Rattle.board.specs.Numbers.{number_of_task, number_of_message};
ghost use Rattle.stores.specs.Changes as stores;

use board::numbers::{MsgNo, TaskNo};
use board::places::Place;
use lent::bytes::LentMut;

pub mod spot;

// A bit of task k's STAT set.
pub fn set_bit(l: &mut LentMut<'_>, k: TaskNo, bit: u8)
    ensures { Becomes l.old l.new (stores.sets l.old.size l.old.bytes.now k.0 bit) }
{
    let t = l.read().task(k);
    l.put_task(k, t.with_stat(t.stat.with(bit)));
}

// A bit of task k's STAT cleared.
pub fn clear_bit(l: &mut LentMut<'_>, k: TaskNo, bit: u8)
    ensures { Becomes l.old l.new (stores.clears l.old.size l.old.bytes.now k.0 bit) }
{
    let t = l.read().task(k);
    l.put_task(k, t.with_stat(t.stat.without(bit)));
}

// MPTR of task k is m.
pub fn set_mptr(l: &mut LentMut<'_>, k: TaskNo, m: Option<MsgNo>)
    ensures { Becomes l.old l.new (stores.with_mptr l.old.size l.old.bytes.now k.0 (number_of_message m)) }
{
    let t = l.read().task(k);
    l.put_task(k, t.with_mptr(m));
}

// LINK of task k is the next.
pub fn link_task(l: &mut LentMut<'_>, k: TaskNo, next: Option<TaskNo>)
    ensures { Becomes l.old l.new (stores.link_task l.old.size l.old.bytes.now k.0 (number_of_task next)) }
{
    let t = l.read().task(k);
    l.put_task(k, t.with_link(next));
}

// LINK of message m is the next.
pub fn link_message(l: &mut LentMut<'_>, m: MsgNo, next: Option<MsgNo>)
    ensures { Becomes l.old l.new (stores.link_message l.old.size l.old.bytes.now m.0 (number_of_message next)) }
{
    let u = l.read().message(m);
    l.put_message(m, u.with_link(next));
}

// Task c holds message m, with LINK 0.
pub fn hold(l: &mut LentMut<'_>, c: TaskNo, m: MsgNo)
    ensures { Becomes l.old l.new (stores.hold l.old.size l.old.bytes.now c.0 m.0) }
{
    link_message(l, m, None);
    l.put_place(m, Place::HeldBy(c));
}
