// CODE. The bodies of post interrupt and wait for interrupt. Each tests the refusals of its row in the paper's order, and only then writes.
#![tactic(auto)]

ghost use Rattle.paper.specs.declared.call.Call.TheVariants as calls;
ghost use Rattle.stores.specs.Answers.{Runner, Made};
ghost use Rattle.stores.specs.Calls.{stepping};

use board::numbers::TaskNo;
use board::status::Status;
use changes::{clear_bit, set_bit};
use inner::refusals::present_task;
use lent::bytes::LentMut;
use paper::answer::Refusal;
use stores::{Body, Done};

pub fn post_interrupt(l: &mut LentMut<'_>, k: u16) -> Body
    ensures { Made result l.old l.new (stepping l.old.size l.old.bytes.now (calls.PostInterrupt k)) }
{
    let k = present_task(l.read(), k).ok_or(Refusal::NoSuchTask)?;
    if l.read().task(k).stat.has(Status::IWAT) {
        clear_bit(l, k, Status::IWAT);
    } else {
        set_bit(l, k, Status::INTQ);
    }
    Ok(Done::stirs(k))
}

pub fn wait_for_interrupt(l: &mut LentMut<'_>, c: Option<TaskNo>) -> Body
    requires { Runner l.old.size l.old.bytes.now c }
    ensures { Made result l.old l.new (stepping l.old.size l.old.bytes.now calls.WaitForInterrupt) }
{
    let c = c.ok_or(Refusal::NobodyRuns)?;
    if l.read().task(c).stat.has(Status::INTQ) {
        clear_bit(l, c, Status::INTQ);
    } else {
        set_bit(l, c, Status::IWAT);
    }
    Ok(Done::rests(0))
}
