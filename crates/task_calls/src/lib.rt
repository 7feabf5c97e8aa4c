// CODE. The bodies of the calls on tasks: install, cancel task and find. Each tests the refusals of its row in the paper's order, and only
// then writes.
#![tactic(auto)]

ghost use Rattle.std.specs.Prelude.{◌≡◌};
ghost use Rattle.board.specs.Numbers.{number_of_task};
ghost use Rattle.lent.specs.Lent.{board};
ghost use Rattle.paper.specs.declared.call.Call.TheVariants as calls;
ghost use Rattle.paper.specs.Refusals.{holds_one, is_awaited, no10, no9};
ghost use Rattle.stores.specs.Effects.{find};
ghost use Rattle.stores.specs.Answers.{Runner, Made, Makes};
ghost use Rattle.stores.specs.Calls.{stepping};

use board::numbers::{Number, TaskNo};
use board::records::Task;
use board::status::Status;
use inner::refusals::present_task;
use lent::by_word::{is_timed, message_meant, place_meant};
use lent::bytes::{Lent, LentMut};
use paper::answer::Refusal;
use record_rules::tasks::task_prio;
use stores::{Body, Done};
use task_queue::{into_order, out_of_order};

// A status that a task can't be installed with: TCBB clear, or a flag set that only calls set.
fn bad_status(s: Status) -> bool
    ensures { result ≡ (no9 s.0).applies }
{
    !s.has(Status::TCBB)
        || s.has(Status::WAIT)
        || s.has(Status::IWAT)
        || s.has(Status::BIT5)
        || s.has(Status::INTQ)
        || s.has(Status::MHBS)
}

pub fn install(l: &mut LentMut<'_>, k: u16, stat: u8, prio: u8, sptr: u16, name: u16) -> Body
    ensures { Made result l.old l.new (stepping l.old.size l.old.bytes.now (calls.Install k stat prio sptr name)) }
{
    if !task_prio(prio) {
        return Err(Refusal::BadPriority);
    }
    let k = TaskNo::meant(l.size, k).ok_or(Refusal::NotInstallable)?;
    if l.read().task(k).present() {
        return Err(Refusal::NotInstallable);
    }
    let stat = Status::stored(stat);
    if bad_status(stat) {
        return Err(Refusal::BadStatus);
    }
    let t = Task {
        stat,
        prio,
        link: 0,
        mptr: 0,
        sptr,
        name,
    };
    into_order(l, k, t);
    Ok(Done::stirs(k))
}

// The first task in queue order with that name, if any.
fn named(l: Lent<'_>, name: u16) -> Option<TaskNo>
    ensures { number_of_task result ≡ find l.entry.size l.entry.bytes.now name }
{
    let mut cur = l.first_task();
    for _ in 0..l.size.messages {
        let t = l.task(cur?);
        if t.name == name {
            return cur;
        }
        cur = t.next(l.size);
    }
    None
}

pub fn find_task(l: Lent<'_>, name: u16) -> Body
    ensures { Makes result l.entry.bytes.now (stepping l.entry.size l.entry.bytes.now (calls.Find name)) }
{
    Ok(Done::rests(named(l, name).number()))
}

// True if task k holds a message.
fn holds_one(l: Lent<'_>, k: TaskNo) -> bool
    ensures { result ≡ holds_one (board l.entry) k.0 }
{
    (1..=l.size.messages).any(|m| place_meant(l, m).is_held_by(k))
}

// True if task k is SPTR of a message on the timer.
fn is_awaited(l: Lent<'_>, k: TaskNo) -> bool
    ensures { result ≡ is_awaited l.entry.size (board l.entry) k.0 }
{
    (1..=l.size.messages).any(|m| is_timed(l, m) && message_meant(l, m).sptr == k.number())
}

// True if task k can't be cancelled: a message is queued at it, it holds one, it waits for an interrupt, or it is awaited.
fn is_busy(l: Lent<'_>, k: TaskNo) -> bool
    ensures { result ≡ (no10 l.entry.size (board l.entry) k.0).applies }
{
    let t = l.task(k);
    t.mptr != 0 || holds_one(l, k) || t.stat.has(Status::IWAT) || is_awaited(l, k)
}

pub fn cancel_task(l: &mut LentMut<'_>, c: Option<TaskNo>, k: u16) -> Body
    requires { Runner l.old.size l.old.bytes.now c }
    ensures { Made result l.old l.new (stepping l.old.size l.old.bytes.now (calls.CancelTask k)) }
{
    c.ok_or(Refusal::NobodyRuns)?;
    let k = present_task(l.read(), k).ok_or(Refusal::NoSuchTask)?;
    if is_busy(l.read(), k) {
        return Err(Refusal::TaskBusy);
    }
    out_of_order(l, k);
    l.put_task(k, Task::none());
    Ok(Done::stirs(k))
}
