// Now and the entries, each by its number from 1 to 16, on lent bytes that hold a whole timer buffer. Who reads here has tested
// the length once, so nothing here tests it again. A number that the buffer does not have reads as a free entry, and writing
// there changes nothing.
ghost use Rattle.std.specs.Prelude.{◌≡◌, ◌≤◌, length};
ghost use Rattle.lent.specs.Starts.{StartsAt};
ghost use Rattle.timer.specs.Timer.{entry_area, timer_of, entry};
ghost use Rattle.timer.specs.Writes.{put_now, put_entry};

use crate::entry::Entry;
use lent::bytes::{byte_in, put_byte, put_word, word};

// The tick counter.
pub fn now_at(s: &[u8]) -> u16
    requires { 50 ≤ length s.now }
    ensures { result ≡ (timer_of s.now).ticks }
{
    word(s, 0)
}

pub fn put_now(s: &mut [u8], w: u16)
    requires { 50 ≤ length s.old }
    ensures { s.new ≡ put_now s.old w }
{
    put_word(s, 0, w);
}

// Where entry i starts, if the buffer has it.
fn entry_start(i: u16) -> Option<usize>
    ensures { StartsAt entry_area i result }
{
    if i == 0 || 16 < i {
        return None;
    }
    Some(3 * (i as usize) - 1)
}

pub fn entry_at(s: &[u8], i: u16) -> Entry
    requires { 50 ≤ length s.now }
    ensures { result ≡ entry (timer_of s.now) i }
{
    let Some(o) = entry_start(i) else {
        return Entry::none();
    };
    Entry {
        message: byte_in(s, o),
        due: word(s, o + 1),
    }
}

pub fn put_entry(s: &mut [u8], i: u16, e: Entry)
    requires { 50 ≤ length s.old }
    ensures { s.new ≡ put_entry s.old i e }
{
    let Some(o) = entry_start(i) else {
        return;
    };
    put_byte(s, o, e.message);
    put_word(s, o + 1, e.due);
}
