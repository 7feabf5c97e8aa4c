// The record that send stores.
ghost use Rattle.std.specs.Prelude.{◌≡◌, cond, eqb};
ghost use Rattle.paper.specs.Effects.{own_prio};
ghost use Rattle.stores.specs.Effects.{addressed_as};

use board::numbers::{Number, TaskNo};
use board::priority::number;
use board::records::Message;

// Priority 127 asks for the sender's own; the queue type stays.
fn own_prio(p: u8, own: u8) -> u8
    ensures { result ≡ own_prio p own }
{
    if number(p) == 127 {
        return 2 * number(own) + p % 2;
    }
    p
}

// The sender's name, where none is set.
fn sender(sptr: u16, c: TaskNo) -> u16
    ensures { result ≡ cond (eqb sptr 0) c.0 sptr }
{
    if sptr == 0 {
        return c.number();
    }
    sptr
}

// The message u as task c, of PRIO own, sends it to r.
pub fn addressed(u: Message, own: u8, c: TaskNo, r: TaskNo) -> Message
    ensures { result ≡ addressed_as u own c.0 r.0 }
{
    let p = own_prio(u.prio, own);
    let s = sender(u.sptr, c);
    u.with_prio(p).with_rptr(r).with_sptr(s)
}
