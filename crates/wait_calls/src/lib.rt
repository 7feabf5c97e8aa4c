// CODE. The wait: of receive and wait, and behind the placing of the other wait forms.
#![tactic(auto)]

ghost use Rattle.board.specs.Numbers.{number_of_task};
ghost use Rattle.lent.specs.Lent.{Becomes};
ghost use Rattle.paper.specs.declared.call.Call.TheVariants as calls;
ghost use Rattle.stores.specs.Effects.{waits};
ghost use Rattle.stores.specs.Answers.{Runner, Made};
ghost use Rattle.stores.specs.Calls.{stepping, waiting};

use board::numbers::TaskNo;
use board::status::Status;
use changes::set_bit;
use lent::bytes::LentMut;
use paper::answer::Refusal;
use stores::{Body, Done};

// The task that is meant is due a message if one is queued at it, else it waits for one.
fn wait(l: &mut LentMut<'_>, c: Option<TaskNo>)
    ensures { Becomes l.old l.new (waits l.old.size l.old.bytes.now (number_of_task c)) }
{
    let Some(k) = c else {
        return;
    };
    if l.read().task(k).mptr == 0 {
        set_bit(l, k, Status::WAIT);
    } else {
        set_bit(l, k, Status::MHBS);
    }
}

// The wait of a wait form, behind its placing; a refusal is passed on.
pub fn then_wait(l: &mut LentMut<'_>, c: Option<TaskNo>, placed: Body) -> Body
    ensures { Made result l.old l.new (waiting l.old.size (number_of_task c) placed l.old.bytes.now) }
{
    let Ok(done) = placed else {
        return placed;
    };
    wait(l, c);
    Ok(Done {
        value: 0,
        stirred: done.stirred,
    })
}

pub fn receive_and_wait(l: &mut LentMut<'_>, c: Option<TaskNo>) -> Body
    requires { Runner l.old.size l.old.bytes.now c }
    ensures { Made result l.old l.new (stepping l.old.size l.old.bytes.now calls.ReceiveAndWait) }
{
    c.ok_or(Refusal::NobodyRuns)?;
    wait(l, c);
    Ok(Done::rests(0))
}
