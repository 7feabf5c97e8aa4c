// 'Place m at r'.
ghost use Rattle.lent.specs.Lent.{Becomes};
ghost use Rattle.stores.specs.Effects.{woken, place_at};

use board::numbers::{MsgNo, TaskNo};
use board::places::Place;
use board::records::Message;
use board::status::Status;
use changes::{clear_bit, set_bit};
use lent::bytes::LentMut;
use message_queue::into_queue;

// A task that waits for a message is due one.
fn wake(l: &mut LentMut<'_>, r: TaskNo)
    ensures { Becomes l.old l.new (woken l.old.size l.old.bytes.now r.0) }
{
    if l.read().task(r).stat.has(Status::WAIT) {
        clear_bit(l, r, Status::WAIT);
        set_bit(l, r, Status::MHBS);
    }
}

// Message m becomes u and is placed at task r: into its queue, bit 0 of PRIO set, r woken.
pub fn place(l: &mut LentMut<'_>, m: MsgNo, u: Message, r: TaskNo)
    ensures { Becomes l.old l.new (place_at l.old.size l.old.bytes.now m.0 u r.0) }
{
    into_queue(l, m, u, r);
    l.put_place(m, Place::QueuedAt(r));
    wake(l, r);
}
