// How many tasks are installed and how many blocks lie where, and the same in words.
ghost use Rattle.std.specs.Prelude.{◌≡◌, ◌≤◌, IfOk};
ghost use Rattle.lent.specs.Lent.{board};
ghost use Rattle.paper.specs.Rules.{present};
ghost use Rattle.queue_rules.specs.Walks.{counted};
ghost use Rattle.telling.specs.Totals.{within};

use lent::by_word::{place_meant, task_meant};
use lent::bytes::Lent;
use std::io;
use std::io::Write;

// How many tasks are installed.
pub fn count_present(l: Lent<'_>) -> u16
    ensures { result ≡ counted (present (board l.entry)) l.entry.size.tasks }
{
    let mut n = 0;
    for k in 1..=l.size.tasks {
        if task_meant(l, k).present() {
            n += 1;
        }
    }
    n
}

// Block m lies at a place whose byte is from low to high.
fn lies(l: Lent<'_>, m: u16, low: u8, high: u8) -> bool
    ensures { result ≡ within (board l.entry) low high m }
{
    let at = place_meant(l, m).byte();
    low <= at && at <= high
}

// How many blocks lie at places whose byte is from low to high. On the small board held are 1 to 32, queued 65 to 96, on the
// timer 128.
pub fn blocks(l: Lent<'_>, low: u8, high: u8) -> u16
    ensures { (result ≡ counted (within (board l.entry) low high) l.entry.size.messages) × (result ≤ l.entry.size.messages) }
{
    let mut n = 0;
    for m in 1..=l.size.messages {
        if lies(l, m, low, high) {
            n += 1;
        }
    }
    n
}

// Answers how many tasks are installed.
pub fn tell_installed<W: Write>(out: &mut W, l: Lent<'_>) -> io::Result<u16>
    ensures { IfOk result (λ n. n ≡ counted (present (board l.entry)) l.entry.size.tasks) }
{
    let n = count_present(l);
    write!(out, "{n} of {} tasks installed", l.size.tasks)?;
    Ok(n)
}

// Answers how many blocks are free.
pub fn tell_blocks<W: Write>(out: &mut W, l: Lent<'_>) -> io::Result<u16>
    ensures { IfOk result (λ n. n ≡ counted (within (board l.entry) 0 0) l.entry.size.messages) }
{
    let free = blocks(l, 0, 0);
    write!(
        out,
        "{} blocks: {free} free, {} held, {} queued, {} on the timer",
        l.size.messages,
        blocks(l, 1, 32),
        blocks(l, 65, 96),
        blocks(l, 128, 128),
    )?;
    Ok(free)
}
