// A tick: now goes on by one, each message that is due goes back to its SPTR task in entry order, and dispatch ends it.
ghost use Rattle.std.specs.Prelude.{◌≡◌, length};
ghost use Rattle.lent.specs.Lent.{Becomes};
ghost use Rattle.stores.specs.Answers.{Runner};
ghost use Rattle.timer.specs.Timer.{timer_length};
ghost use Rattle.timer_calls.specs.Stores.{given_back, Made, Ended, returning, ticking, tick_called};

use board::numbers::{MsgNo, TaskNo};
use dispatch::dispatch;
use lent::bytes::LentMut;
use order_rules::who::first_ready;
use paper::answer::Answer;
use place_calls::place::place;
use stores::Done;
use timer::bytes::{entry_at, now_at, put_entry, put_now};
use timer::entry::Entry;

// Message m is placed at its SPTR task.
fn give_back(l: &mut LentMut<'_>, m: u8)
    ensures { Becomes l.old l.new (given_back l.old.size l.old.bytes.now m) }
{
    let Some(m) = MsgNo::meant(l.size, m as u16) else {
        return;
    };
    let u = l.read().message(m);
    let Some(r) = TaskNo::meant(l.size, u.sptr) else {
        return;
    };
    place(l, m, u, r);
}

// Each message that is due at this tick goes back, and its entry is freed. True if there was one.
fn return_due(l: &mut LentMut<'_>, s: &mut [u8], at: u16) -> bool
    requires { length s.old ≡ timer_length }
    ensures { Made result l.old l.new s.new (returning l.old.size l.old.bytes.now s.old at) }
{
    let mut any = false;
    for before in 0..16 {
        let i = before + 1;
        let e = entry_at(s, i);
        if !e.is_due(at) {
            continue;
        }
        give_back(l, e.message);
        put_entry(s, i, Entry::none());
        any = true;
    }
    any
}

// Whoever may have become ready by it: where a message went back, the first ready task, and else nobody.
fn tick_body(l: &mut LentMut<'_>, s: &mut [u8]) -> Option<TaskNo>
    requires { length s.old ≡ timer_length }
    ensures { Made result l.old l.new s.new (ticking l.old.size l.old.bytes.now s.old) }
{
    let at = now_at(s).wrapping_add(1);
    put_now(s, at);
    if return_due(l, s, at) {
        first_ready(l.read())
    } else {
        None
    }
}

// And dispatch behind it, once.
pub fn make_tick(l: &mut LentMut<'_>, s: &mut [u8], c: Option<TaskNo>) -> Answer
    requires { Runner l.old.size l.old.bytes.now c × (length s.old ≡ timer_length) }
    ensures { Ended result l.old l.new s.new (tick_called l.old.size l.old.bytes.now s.old) }
{
    let stirred = tick_body(l, s);
    dispatch(l, c, Ok(Done { value: 0, stirred }))
}
