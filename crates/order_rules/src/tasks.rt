// R3: the links of the task queue visit every present task, and priority numbers never fall. The walk meets the first ready
// task on its way, of which R7 asks.
ghost use Rattle.std.specs.Prelude.{◌≡◌, Some};
ghost use Rattle.board.specs.Numbers.{task_meant};
ghost use Rattle.lent.specs.Lent.{board};
ghost use Rattle.paper.specs.Rules.{present, next_task, task_number};
ghost use Rattle.order_rules.specs.Order.{task_turned, order_from, listed_by};
ghost use Rattle.order_rules.specs.Tasks.{task_means, task_beyond};

use board::numbers::TaskNo;
use board::priority::number;
use lent::bytes::{Lent, no_tasks};
use paper::answer::Rule;
use queue_rules::walk::{Queue, Turn, walk};

// The task queue.
#[derive(Clone, Copy)]
struct TaskQueue<'a> {
    l: Lent<'a>,
}

impl<'a> Queue for TaskQueue<'a> {
    type At = TaskNo;

    ghost meant = { λ q. task_meant q.l.size };

    ghost next = { λ q. next_task (board q.l) };

    ghost rank = { λ q. task_number (board q.l) };

    ghost good = { λ q. present (board q.l) };

    ghost means = { λ q. task_means q.l.size };

    ghost beyond = { λ q. task_beyond q.l.size q.l.bytes.now };

    fn turn(self, k: TaskNo, low: u8) -> Turn<TaskNo>
        ensures { result ≡ task_turned self.entry.l.size (board self.entry.l) k.0 low }
    {
        let t = self.l.task(k);
        if !t.present() {
            return Turn::Stray;
        }
        let p = number(t.prio);
        if p < low {
            return Turn::Stray;
        }
        if t.link == 0 {
            return Turn::End;
        }
        match t.next(self.l.size) {
            Some(j) => Turn::Next { at: j, low: p },
            None => Turn::Stray,
        }
    }
}

// A walk that ended: how many tasks it saw, and the first ready one.
#[derive(Clone, Copy)]
pub struct Seen {
    n: u32,
    c: Option<TaskNo>,
}

// The walk from the first task on, of at most so many, up to the first that is ready; from there on it looks for none.
fn walk_from(l: Lent<'_>, first: TaskNo, limit: u32) -> Option<Seen>
    requires { task_meant l.size first.0 ≡ Some first }
    ensures { result ≡ order_from l.entry.size (board l.entry) limit first.0 }
{
    let queue = TaskQueue { l };
    let mut k = first;
    let mut low = 0;
    for seen in 0..limit {
        if l.task(k).ready() {
            let n = walk(queue, k, low, seen, limit)?;
            return Some(Seen { n, c: Some(k) });
        }
        match queue.turn(k, low) {
            Turn::Next { at: j, low: p } => {
                k = j;
                low = p;
            }
            Turn::End => {
                return Some(Seen {
                    n: seen + 1,
                    c: None,
                });
            }
            Turn::Stray => {
                return None;
            }
        }
    }
    None
}

fn walk_tasks(l: Lent<'_>, most: u32) -> Option<Seen>
    ensures { result ≡ order_from l.entry.size (board l.entry) most (board l.entry).first }
{
    if no_tasks(l.bytes) {
        return Some(Seen { n: 0, c: None });
    }
    walk_from(l, l.first_task()?, most)
}

// R3, where so many tasks are present: the task queue is in order if the walk saw as many, and this is its first ready task. It goes no
// further than that: links that lead back are soon given up.
pub fn rule3(l: Lent<'_>, present: u16) -> Result<Option<TaskNo>, Rule>
    ensures { result ≡ listed_by present (order_from l.entry.size (board l.entry) l.entry.size.messages (board l.entry).first) }
{
    let most = present.min(l.size.messages);
    match walk_tasks(l, most as u32) {
        Some(seen) if seen.n == present as u32 => Ok(seen.c),
        _ => Err(Rule::R3),
    }
}
