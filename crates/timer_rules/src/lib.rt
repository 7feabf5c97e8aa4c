// CODE. Refusal 18 (document 02, Ask 5): is this a timer buffer for the board? Each entry is looked at once. The messages on the timer are
// counted by their places alone: where as many entries are used, each for another message that is there, they are exactly those.
#![tactic(auto)]

ghost use Rattle.std.specs.Prelude.{◌≡◌, ◌≤◌, length};
ghost use Rattle.lent.specs.Lent.{board};
ghost use Rattle.timer.specs.Timer.{timer_of};
ghost use Rattle.timing.specs.Timing.{good_timer};
ghost use Rattle.timer_rules.specs.Buffer.{named_before, good_as, used_of, timed_of};

use lent::by_word::is_timed;
use lent::bytes::Lent;
use timer::bytes::entry_at;
use timer::entry::Entry;

// How many messages are placed on the timer.
fn count_timed(l: Lent<'_>) -> u16
    ensures { result ≡ timed_of l.entry.size (board l.entry) }
{
    let mut n = 0;
    for before in 0..l.size.messages {
        if is_timed(l, before + 1) {
            n += 1;
        }
    }
    n
}

// An entry before entry i names the message m.
fn named_before(s: &[u8], i: u16, m: u8) -> bool
    requires { 50 ≤ length s.now }
    ensures { result ≡ named_before (timer_of s.now) i m }
{
    for j in 1..i {
        if entry_at(s, j).message == m {
            return true;
        }
    }
    false
}

// Entry i, which is e: used, it names a message that is on the timer and that no entry before it names; free, it is zero.
fn good_entry(l: Lent<'_>, s: &[u8], i: u16, e: Entry) -> bool
    requires { 50 ≤ length s.now }
    ensures { result ≡ good_as (board l.entry) (timer_of s.now) i e }
{
    if e.used() {
        is_timed(l, e.message as u16) && !named_before(s, i, e.message)
    } else {
        e.due == 0
    }
}

// Each entry is looked at, and the used ones are counted, if each is good.
fn count_used(l: Lent<'_>, s: &[u8]) -> Option<u16>
    requires { 50 ≤ length s.now }
    ensures { result ≡ used_of (board l.entry) (timer_of s.now) }
{
    let mut n = 0;
    for before in 0..16 {
        let i = before + 1;
        let e = entry_at(s, i);
        if !good_entry(l, s, i, e) {
            return None;
        }
        if e.used() {
            n += 1;
        }
    }
    Some(n)
}

// The buffer s is one for the board l.
pub fn good_timer(l: Lent<'_>, s: &[u8]) -> bool
    ensures { result ≡ good_timer (board l.entry) s.now }
{
    if s.len() != 50 {
        return false;
    }
    let Some(n) = count_used(l, s) else {
        return false;
    };
    n == count_timed(l)
}
