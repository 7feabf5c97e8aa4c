// CODE. Dispatch, which ends every accepted call: who runs is settled, and is handed its first message if it is due one.
#![tactic(auto)]

ghost use Rattle.std.specs.Prelude.{◌≡◌, ◌&&◌, ltb};
ghost use Rattle.board.specs.Numbers.{number_of_task};
ghost use Rattle.board.specs.Status.{number};
ghost use Rattle.lent.specs.Lent.{board};
ghost use Rattle.paper.specs.Rules.{ready, task_number};
ghost use Rattle.stores.specs.Answers.{Ended};
ghost use Rattle.stores.specs.Calls as stores;

use board::numbers::{Number, TaskNo};
use board::priority::number;
use board::records::Task;
use board::status::Status;
use changes::clear_bit;
use lent::bytes::{Lent, LentMut, put_running};
use order_rules::who::first_ready;
use paper::answer::{Accepted, Answer, Refusal};
use stores::{Body, with_nobody};
use take_calls::take_first;

// Task k is dispatched, and handed a message if it is due one; the call's value is told.
fn hand_over(l: &mut LentMut<'_>, k: TaskNo, value: u16) -> Answer
    ensures { Ended result l.old l.new (stores.dispatch l.old.size value l.old.bytes.now k.0) }
{
    let running = k.number();
    if !l.read().task(k).stat.has(Status::MHBS) {
        return Ok(Accepted {
            value,
            running,
            delivered: 0,
        });
    }
    let m = take_first(l, k).ok_or(Refusal::NothingToDeliver)?;
    clear_bit(l, k, Status::MHBS);
    Ok(Accepted {
        value,
        running,
        delivered: m.number(),
    })
}

// Task w is ready and has a smaller priority number than the task of record t.
fn outranks(l: Lent<'_>, t: Task, w: TaskNo) -> bool
    ensures { result ≡ ready (board l.entry) w.0 && ltb (task_number (board l.entry) w.0) (number t.prio) }
{
    let u = l.task(w);
    u.ready() && number(u.prio) < number(t.prio)
}

// Who runs after a body, where c ran before it: c goes on if it is ready, unless the task stirred outranks it, for nobody else can have
// become ready. Only where c is not ready is the task queue looked through.
fn runs_then(l: Lent<'_>, c: Option<TaskNo>, stirred: Option<TaskNo>) -> Option<TaskNo>
    ensures { number_of_task result ≡ stores.runs_then l.entry.size (number_of_task c) stirred l.entry.bytes.now }
{
    let Some(k) = c else {
        return first_ready(l);
    };
    let t = l.task(k);
    if !t.ready() {
        return first_ready(l);
    }
    let Some(w) = stirred else {
        return c;
    };
    if outranks(l, t, w) { stirred } else { c }
}

// Dispatch behind a body, c having run before it: who runs is written into byte 1 and handed a message if it is due one. A refusal is
// passed on.
pub fn dispatch(l: &mut LentMut<'_>, c: Option<TaskNo>, body: Body) -> Answer
    ensures { Ended result l.old l.new (stores.finish l.old.size (number_of_task c) body l.old.bytes.now) }
{
    let Ok(done) = body else {
        return with_nobody(body);
    };
    let who = runs_then(l.read(), c, done.stirred);
    put_running(l.bytes, who);
    let Some(k) = who else {
        return with_nobody(body);
    };
    hand_over(l, k, done.value)
}
