// CODE. The nineteen bodies behind one match, and dispatch behind them: a call on a board that passes.
#![tactic(auto)]

ghost use Rattle.stores.specs.Answers.{Runner, Made, Ended};
ghost use Rattle.stores.specs.Calls.{stepping, called};

use block_calls::{claim, prepare, release};
use board::numbers::TaskNo;
use dispatch::dispatch;
use interrupt_calls::{post_interrupt, wait_for_interrupt};
use lent::bytes::LentMut;
use paper::answer::Answer;
use paper::call::Call;
use place_calls::sends::{forward, give_back, resend, send};
use stores::Body;
use take_calls::{cancel_message, receive};
use task_calls::{cancel_task, find_task, install};
use wait_calls::{receive_and_wait, then_wait};

// The body of a call, its refusals tested first; c runs, or nobody.
fn body(l: &mut LentMut<'_>, c: Option<TaskNo>, call: Call) -> Body
    requires { Runner l.old.size l.old.bytes.now c }
    ensures { Made result l.old l.new (stepping l.old.size l.old.bytes.now call) }
{
    match call {
        Call::Install {
            k,
            stat,
            prio,
            sptr,
            name,
        } => install(l, k, stat, prio, sptr, name),
        Call::PostInterrupt { k } => post_interrupt(l, k),
        Call::Find { name } => find_task(l.read(), name),
        Call::CancelTask { k } => cancel_task(l, c, k),
        Call::Claim => claim(l, c),
        Call::Prepare {
            m,
            stat,
            prio,
            sptr,
        } => prepare(l, c, m, stat, prio, sptr),
        Call::Release { m } => release(l, c, m),
        Call::Send { m, r } => send(l, c, m, r),
        Call::SendAndWait { m, r } => {
            let placed = send(l, c, m, r);
            then_wait(l, c, placed)
        }
        Call::Resend { m } => resend(l, c, m),
        Call::ResendAndWait { m } => {
            let placed = resend(l, c, m);
            then_wait(l, c, placed)
        }
        Call::Forward { m, r } => forward(l, c, m, r),
        Call::ForwardAndWait { m, r } => {
            let placed = forward(l, c, m, r);
            then_wait(l, c, placed)
        }
        Call::Return { m } => give_back(l, c, m),
        Call::ReturnAndWait { m } => {
            let placed = give_back(l, c, m);
            then_wait(l, c, placed)
        }
        Call::Receive => receive(l, c),
        Call::ReceiveAndWait => receive_and_wait(l, c),
        Call::CancelMessage { m, r } => cancel_message(l, c, m, r),
        Call::WaitForInterrupt => wait_for_interrupt(l, c),
    }
}

// A call on a board that passes, whatever its arguments; c runs on it, or nobody.
pub fn make_call(l: &mut LentMut<'_>, c: Option<TaskNo>, call: Call) -> Answer
    requires { Runner l.old.size l.old.bytes.now c }
    ensures { Ended result l.old l.new (called l.old.size l.old.bytes.now call) }
{
    let done = body(l, c, call);
    dispatch(l, c, done)
}
