// CODE. A queued message comes into a task's hands: receive, cancel message, and what dispatch does. Each call tests the refusals of its
// row in the paper's order, and only then writes.
#![tactic(auto)]

ghost use Rattle.std.specs.Prelude.{◌≡◌};
ghost use Rattle.board.specs.Board.{task, board_of};
ghost use Rattle.board.specs.Numbers.{message_meant};
ghost use Rattle.lent.specs.Lent.{Becomes};
ghost use Rattle.paper.specs.declared.call.Call.TheVariants as calls;
ghost use Rattle.stores.specs.Answers.{Runner, Made};
ghost use Rattle.stores.specs.Calls.{stepping};
ghost use Rattle.stores.specs.Effects.{take_first, emptied, cancel_message};

use board::numbers::{MsgNo, Number, TaskNo};
use board::status::Status;
use changes::{clear_bit, hold, set_bit, set_mptr};
use inner::refusals::present_task;
use lent::bytes::LentMut;
use message_queue::out_of_queue;
use paper::answer::Refusal;
use stores::{Body, Done};

// Task c takes the first message of its queue, if there is one.
pub fn take_first(l: &mut LentMut<'_>, c: TaskNo) -> Option<MsgNo>
    ensures first { result ≡ message_meant l.old.size (task (board_of l.old.size l.old.bytes.now) c.0).mptr }
    ensures taken { Becomes l.old l.new (take_first l.old.size l.old.bytes.now c.0) }
{
    let m = l.read().task(c).first(l.size)?;
    let next = l.read().next_message(m);
    set_mptr(l, c, next);
    hold(l, c, m);
    Some(m)
}

pub fn receive(l: &mut LentMut<'_>, c: Option<TaskNo>) -> Body
    requires { Runner l.old.size l.old.bytes.now c }
    ensures { Made result l.old l.new (stepping l.old.size l.old.bytes.now calls.Receive) }
{
    let c = c.ok_or(Refusal::NobodyRuns)?;
    let first = take_first(l, c);
    Ok(Done::rests(first.number()))
}

// A task that is due a message and has none queued waits again.
fn wait_again(l: &mut LentMut<'_>, r: TaskNo)
    ensures { Becomes l.old l.new (emptied l.old.size l.old.bytes.now r.0) }
{
    let t = l.read().task(r);
    if t.mptr == 0 && t.stat.has(Status::MHBS) {
        clear_bit(l, r, Status::MHBS);
        set_bit(l, r, Status::WAIT);
    }
}

// Task c takes message m back from the queue of r.
fn take_back(l: &mut LentMut<'_>, c: TaskNo, m: MsgNo, r: TaskNo)
    ensures { Becomes l.old l.new (cancel_message l.old.size l.old.bytes.now c.0 m.0 r.0) }
{
    out_of_queue(l, m, r);
    hold(l, c, m);
    wait_again(l, r);
}

pub fn cancel_message(l: &mut LentMut<'_>, c: Option<TaskNo>, m: u16, r: u16) -> Body
    requires { Runner l.old.size l.old.bytes.now c }
    ensures { Made result l.old l.new (stepping l.old.size l.old.bytes.now (calls.CancelMessage m r)) }
{
    let c = c.ok_or(Refusal::NobodyRuns)?;
    let m = MsgNo::meant(l.size, m).ok_or(Refusal::NoSuchMessage)?;
    let r = present_task(l.read(), r).ok_or(Refusal::NoSuchTask)?;
    if !l.read().queued_at(r, m) {
        return Err(Refusal::NotQueued);
    }
    if l.read().message(m).sptr != c.number() {
        return Err(Refusal::NotItsSender);
    }
    take_back(l, c, m, r);
    Ok(Done::stirs(r))
}
