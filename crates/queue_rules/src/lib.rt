// CODE. R5: the links of a queue visit the messages that are queued there, and priority numbers never fall. The walk follows links while each
// leads to a message that belongs to the queue, and tells how many it saw. As many as there are, all different: then it saw exactly those.
#![tactic(auto)]

pub mod walk;

ghost use Rattle.std.specs.Prelude.{◌≡◌, None, cond, ◌<◌};
ghost use Rattle.lent.specs.Lent.{board};
ghost use Rattle.board.specs.Numbers.{message_meant};
ghost use Rattle.paper.specs.Rules.{next_message, message_number, rule5_at};
ghost use Rattle.queue_rules.specs.Walks.{message_turned, queued_at, queue_walked, walked, saw, Lengths, breaking};
ghost use Rattle.queue_rules.specs.Queues.{message_means, message_beyond};

use crate::walk::{Queue, Turn, walk};
use board::numbers::{MsgNo, Number, TaskNo};
use board::places::Place;
use board::priority::number;
use lent::by_word::place_meant;
use lent::bytes::{Lent, MessageLink};

// The queue of task k.
#[derive(Clone, Copy)]
struct QueueOf<'a> {
    l: Lent<'a>,
    k: TaskNo,
}

impl<'a> Queue for QueueOf<'a> {
    type At = MsgNo;

    ghost meant = { λ q. message_meant q.l.size };

    ghost next = { λ q. next_message (board q.l) };

    ghost rank = { λ q. message_number (board q.l) };

    ghost good = { λ q. queued_at (board q.l) q.k.0 };

    ghost means = { λ q. message_means q.l.size };

    ghost beyond = { λ q. message_beyond q.l.size q.l.bytes.now q.k.0 };

    fn turn(self, m: MsgNo, low: u8) -> Turn<MsgNo>
        ensures { result ≡ message_turned self.entry.l.size (board self.entry.l) self.entry.k.0 m.0 low }
    {
        if !self.l.queued_at(self.k, m) {
            return Turn::Stray;
        }
        let p = number(self.l.prio(m));
        if p < low {
            return Turn::Stray;
        }
        match self.l.link_from(m) {
            MessageLink::On(j) => Turn::Next { at: j, low: p },
            MessageLink::End => Turn::End,
            MessageLink::Beyond => Turn::Stray,
        }
    }
}

// A walk that ended and saw so many.
fn saw(w: Option<u32>, n: u16) -> bool
    ensures { result ≡ saw w n }
{
    w == Some(n as u32)
}

// The walk of task k's queue from its first message on. It gives up where it sees more than so many.
fn walk_queue(l: Lent<'_>, k: TaskNo, most: u32) -> Option<u32>
    ensures { result ≡ queue_walked (board l.entry) most k.0 }
{
    let t = l.task(k);
    if t.mptr == 0 {
        return Some(0);
    }
    let first = t.first(l.size)?;
    walk(QueueOf { l, k }, first, 0, 0, most)
}

// Every queue walked, and how many messages they saw together. Each may see no more than are left of those that are queued: links that
// lead back are soon given up. A loop counts those before a number: `1..=n` asks that n + 1 fits, and no size promises that.
fn walk_queues(l: Lent<'_>, queued: u32) -> Option<u32>
    ensures { result ≡ walked (board l.entry) queued l.entry.size.tasks }
{
    let mut sum: u32 = 0;
    for before in 0..l.size.tasks {
        let k = TaskNo::meant(l.size, before + 1)?;
        sum += walk_queue(l, k, queued - sum)?;
    }
    Some(sum)
}

// How many messages are queued at each task, by its number.
fn queue_lengths(l: Lent<'_>) -> [u16; 256]
    ensures { Lengths (board l.entry) l.entry.size.messages result }
{
    let mut lengths = [0u16; 256];
    for before in 0..l.size.messages {
        if let Place::QueuedAt(k) = place_meant(l, before + 1) {
            let i = k.number() as usize;
            if i < 256 {
                lengths[i] += 1;
            }
        }
    }
    lengths
}

// The smallest task whose queue is wrong, if any: its walk strays, or does not see as many messages as are queued there.
fn wrong_queue(l: Lent<'_>) -> Option<TaskNo>
    requires { l.size.tasks < 256 }
    ensures { result ≡ breaking l.entry.size (rule5_at l.entry.size (board l.entry)) }
{
    let lengths = queue_lengths(l);
    for before in 0..l.size.tasks {
        let k = TaskNo::meant(l.size, before + 1)?;
        let n = lengths[before as usize + 1];
        if !saw(walk_queue(l, k, n as u32), n) {
            return Some(k);
        }
    }
    None
}

// R5, where so many messages are queued: the smallest task whose queue is wrong, if any. Where the walks of all queues saw as many, none is.
pub fn rule5(l: Lent<'_>, queued: u16) -> Option<TaskNo>
    requires { l.size.tasks < 256 }
    ensures { result ≡ cond (saw (walked (board l.entry) queued l.entry.size.tasks) queued) None (breaking l.entry.size (rule5_at l.entry.size (board l.entry))) }
{
    if saw(walk_queues(l, queued as u32), queued) {
        return None;
    }
    wrong_queue(l)
}
