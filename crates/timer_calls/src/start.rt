// Start: the refusals of its row behind 18, in the paper's order, and then the place and the entry.
ghost use Rattle.std.specs.Prelude.{◌≡◌, ◌≤◌, length};
ghost use Rattle.lent.specs.Lent.{Becomes};
ghost use Rattle.stores.specs.Answers.{Runner};
ghost use Rattle.timer.specs.Timer.{timer_of, timer_length};
ghost use Rattle.timer_calls.specs.Stores.{Made, Ended, entry_meant, starting_held, starting, start_called};
ghost use Rattle.timing.specs.Timing.{lowest_entry};

use board::numbers::{MsgNo, Number, TaskNo};
use board::places::Place;
use board::priority::number;
use dispatch::dispatch;
use inner::refusals::{held, present_task};
use lent::bytes::LentMut;
use paper::answer::{Answer, Refusal};
use stores::{Body, Done, Held};
use timer::bytes::{entry_at, now_at, put_entry};
use timer::entry::Entry;

// The lowest free entry, if any.
fn lowest_entry(s: &[u8]) -> Option<u16>
    requires { 50 ≤ length s.now }
    ensures { result ≡ entry_meant (lowest_entry (timer_of s.now)) }
{
    for before in 0..16 {
        if !entry_at(s, before + 1).used() {
            return Some(before + 1);
        }
    }
    None
}

// The held message m: 6, 7, 16 and 17 are left to test. Then it is on the timer, in the lowest free entry, due after the delay.
fn start_held(l: &mut LentMut<'_>, s: &mut [u8], m: MsgNo, delay: u16) -> Body
    requires { length s.old ≡ timer_length }
    ensures { Made result l.old l.new s.new (starting_held l.old.size l.old.bytes.now s.old m.0 delay) }
{
    let u = l.read().message(m);
    let Some(_) = present_task(l.read(), u.sptr) else {
        return Err(Refusal::NoSuchTask);
    };
    if number(u.prio) == 127 {
        return Err(Refusal::BadPriority);
    }
    if delay == 0 {
        return Err(Refusal::NoDelay);
    }
    let i = lowest_entry(s).ok_or(Refusal::NoTimerFree)?;
    l.put_place(m, Place::OnTimer);
    let due = now_at(s).wrapping_add(delay);
    let message = (m.number() % 256) as u8;
    put_entry(s, i, Entry { message, due });
    Ok(Done::rests(0))
}

// Start on a board that passes and a buffer for it; c runs, or nobody.
fn start_body(l: &mut LentMut<'_>, s: &mut [u8], c: Option<TaskNo>, m: u16, delay: u16) -> Body
    requires { Runner l.old.size l.old.bytes.now c × (length s.old ≡ timer_length) }
    ensures { Made result l.old l.new s.new (starting l.old.size l.old.bytes.now s.old m delay) }
{
    let Held { c: _, m } = held(l.read(), c, m)?;
    start_held(l, s, m, delay)
}

// And dispatch behind it.
pub fn make_start(
    l: &mut LentMut<'_>,
    s: &mut [u8],
    c: Option<TaskNo>,
    m: u16,
    delay: u16,
) -> Answer
    requires { Runner l.old.size l.old.bytes.now c × (length s.old ≡ timer_length) }
    ensures { Ended result l.old l.new s.new (start_called l.old.size l.old.bytes.now s.old m delay) }
{
    let done = start_body(l, s, c, m, delay);
    dispatch(l, c, done)
}
