// Send, resend, forward and return, as far as placing.
ghost use Rattle.lent.specs.Lent.{Becomes};
ghost use Rattle.paper.specs.declared.call.Call.TheVariants as calls;
ghost use Rattle.stores.specs.Answers.{Runner, Made};
ghost use Rattle.stores.specs.Calls.{passing, stepping};
ghost use Rattle.stores.specs.Effects.{send};

use crate::place::place;
use board::numbers::{MsgNo, TaskNo};
use board::priority::number;
use inner::refusals::{held, present_task};
use lent::bytes::LentMut;
use paper::answer::Refusal;
use stores::addressed::addressed;
use stores::{Body, Done, Held};

// Task c sends message m to r: it is placed as it is addressed.
fn send_to(l: &mut LentMut<'_>, c: TaskNo, m: MsgNo, r: TaskNo)
    ensures { Becomes l.old l.new (send l.old.size l.old.bytes.now c.0 m.0 r.0) }
{
    let own = l.read().task(c).prio;
    let u = l.read().message(m);
    place(l, m, addressed(u, own, c, r), r);
}

pub fn send(l: &mut LentMut<'_>, c: Option<TaskNo>, m: u16, r: u16) -> Body
    requires { Runner l.old.size l.old.bytes.now c }
    ensures { Made result l.old l.new (stepping l.old.size l.old.bytes.now (calls.Send m r)) }
{
    let Held { c, m } = held(l.read(), c, m)?;
    let r = present_task(l.read(), r).ok_or(Refusal::NoSuchTask)?;
    send_to(l, c, m, r);
    Ok(Done::stirs(r))
}

// The held message m is placed as it is at the task that w means: 6 and 7 are left to test.
fn pass_on(l: &mut LentMut<'_>, m: MsgNo, w: u16) -> Body
    ensures { Made result l.old l.new (passing l.old.size l.old.bytes.now m.0 w) }
{
    let r = present_task(l.read(), w).ok_or(Refusal::NoSuchTask)?;
    let u = l.read().message(m);
    if number(u.prio) == 127 {
        return Err(Refusal::BadPriority);
    }
    place(l, m, u, r);
    Ok(Done::stirs(r))
}

pub fn resend(l: &mut LentMut<'_>, c: Option<TaskNo>, m: u16) -> Body
    requires { Runner l.old.size l.old.bytes.now c }
    ensures { Made result l.old l.new (stepping l.old.size l.old.bytes.now (calls.Resend m)) }
{
    let Held { c: _, m } = held(l.read(), c, m)?;
    let r = l.read().message(m).rptr;
    pass_on(l, m, r)
}

pub fn forward(l: &mut LentMut<'_>, c: Option<TaskNo>, m: u16, r: u16) -> Body
    requires { Runner l.old.size l.old.bytes.now c }
    ensures { Made result l.old l.new (stepping l.old.size l.old.bytes.now (calls.Forward m r)) }
{
    let Held { c: _, m } = held(l.read(), c, m)?;
    pass_on(l, m, r)
}

pub fn give_back(l: &mut LentMut<'_>, c: Option<TaskNo>, m: u16) -> Body
    requires { Runner l.old.size l.old.bytes.now c }
    ensures { Made result l.old l.new (stepping l.old.size l.old.bytes.now (calls.Return m)) }
{
    let Held { c: _, m } = held(l.read(), c, m)?;
    let r = l.read().message(m).sptr;
    pass_on(l, m, r)
}
