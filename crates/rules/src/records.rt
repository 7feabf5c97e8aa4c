// R1, R2, R4 and R6: the rules that ask each record by itself.
ghost use Rattle.std.specs.Prelude.{cond, ◌≡◌, eqb, take, drop};
ghost use Rattle.lent.specs.Lent.{board};
ghost use Rattle.board.specs.Numbers.{task_meant};
ghost use Rattle.board.specs.declared.places.Place.TheVariants.{OnTimer};
ghost use Rattle.paper.specs.Rules.{present, all_zero, good_flags};
ghost use Rattle.rules.specs.Checked.{good_by, messages_seen, earlier, tasks_seen};

use crate::Edition;
use board::numbers::{MsgNo, Size, TaskNo};
use board::places::Place;
use board::records::{Message, Task};
use lent::by_word::{message_meant, place_meant, task_meant};
use lent::bytes::{Lent, byte};
use record_rules::messages::{good_held, good_on_timer, good_queued, zero_message};
use record_rules::tasks::{good_flags, good_task};

// What a look at the tasks tells: the first whose record breaks R2, if any; else the first that breaks R6, and how many are present.
// No Result, for tasks_seen and messages_seen (Checked) are of these structs.
#[derive(Clone, Copy)]
pub struct Tasks {
    pub breaks2: Option<TaskNo>,
    pub breaks6: Option<TaskNo>,
    pub present: u16,
}

// What a look at the messages tells: the first that breaks R4, if any; else how many are queued.
#[derive(Clone, Copy)]
pub struct Messages {
    pub breaks4: Option<MsgNo>,
    pub queued: u16,
}

pub fn rule1(l: &[u8]) -> bool
    ensures { result ≡ all_zero (take 2 (drop 2 l.now)) }
{
    byte(l, 2) == 0 && byte(l, 3) == 0
}

fn present_at(l: Lent<'_>, k: TaskNo) -> bool
    ensures { result ≡ present (board l.entry) k.0 }
{
    l.task(k).present()
}

// A message on the timer, which there was none of where boards were saved.
fn good_timed(edition: Edition, l: Lent<'_>, u: Message) -> bool
    ensures { result ≡ good_by edition l.entry.size (present (board l.entry)) u OnTimer }
{
    match edition {
        Edition::Today => good_on_timer(l.size, u, task_meant(l, u.sptr).present()),
        Edition::Old => false,
    }
}

fn good_message(edition: Edition, l: Lent<'_>, u: Message, p: Place) -> bool
    ensures { result ≡ good_by edition l.entry.size (present (board l.entry)) u p }
{
    match p {
        Place::Free => zero_message(u),
        Place::HeldBy(k) => good_held(l.size, u, present_at(l, k)),
        Place::QueuedAt(k) => good_queued(l.size, u, present_at(l, k)),
        Place::OnTimer => good_timed(edition, l, u),
        Place::Nowhere(_) => false,
    }
}

pub fn survey_messages(edition: Edition, l: Lent<'_>) -> Messages
    ensures { result ≡ messages_seen edition l.entry.size (board l.entry) }
{
    let mut queued = 0;
    for before in 0..l.size.messages {
        let m = before + 1;
        let u = message_meant(l, m);
        let p = place_meant(l, m);
        if !good_message(edition, l, u, p) {
            return Messages {
                breaks4: MsgNo::meant(l.size, m),
                queued: 0,
            };
        }
        if let Place::QueuedAt(_) = p {
            queued += 1;
        }
    }
    Messages {
        breaks4: None,
        queued,
    }
}

// The first task that breaks R6: the one found so far, if any, else task k where its flags do not agree.
fn first_breaking6(z: Size, found: Option<TaskNo>, k: u16, t: Task) -> Option<TaskNo>
    ensures { result ≡ cond (good_flags t.stat (eqb t.mptr 0)) found (earlier found (task_meant z k)) }
{
    if good_flags(t.stat, t.mptr == 0) {
        return found;
    }
    found.or(TaskNo::meant(z, k))
}

// R2 and R6 in one look. R6 is the check's business only where R2 to R5 hold, so it goes on behind a record that breaks R6.
pub fn survey_tasks(l: Lent<'_>) -> Tasks
    ensures { result ≡ tasks_seen l.entry.size (board l.entry) }
{
    let mut breaks6 = None;
    let mut present = 0;
    for before in 0..l.size.tasks {
        let k = before + 1;
        let t = task_meant(l, k);
        if !good_task(t) {
            return Tasks {
                breaks2: TaskNo::meant(l.size, k),
                breaks6: None,
                present: 0,
            };
        }
        breaks6 = first_breaking6(l.size, breaks6, k, t);
        if t.present() {
            present += 1;
        }
    }
    Tasks {
        breaks2: None,
        breaks6,
        present,
    }
}
