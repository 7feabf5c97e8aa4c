// How high the rows of the picture are. A task's row is as high as its box at least, and has room for the rows of its messages;
// so has the timer's below them.
ghost use Rattle.std.specs.Prelude.{◌≤◌, IfSome};

use board::numbers::TaskNo;
use board::places::Place;
use lent::bytes::Lent;
use telling::timer_buffer::Timer;
use telling::totals::blocks;
use telling::walks::tasks;

// Where the first task is drawn.
pub(crate) const TOP: u32 = 86;

// How many messages stand beside each other, and how far apart their rows are.
pub(crate) const BESIDE: u32 = 9;

pub(crate) const ROW: u32 = 44;

// The same of those on the timer, whose boxes are as high as a task's.
pub(crate) const TIMED_ROW: u32 = 60;

// How many rows of messages are at a place.
pub(crate) fn rows_at(l: Lent<'_>, p: Place) -> u32
    ensures { result ≤ 7300 }
{
    let at = p.byte();
    u32::from(blocks(l, at, at)).div_ceil(BESIDE)
}

pub(crate) fn row_height(l: Lent<'_>, k: TaskNo) -> u32
    ensures { (66 ≤ result) × (result ≤ 700000) }
{
    let n = rows_at(l, Place::QueuedAt(k)) + rows_at(l, Place::HeldBy(k));
    if n < 2 {
        return 66;
    }
    ROW * n + 12
}

// Where the last row ends.
pub(crate) fn foot(l: Lent<'_>) -> u32
    ensures { result ≤ 22400086 }
{
    let mut y = TOP;
    for (k, _) in tasks(l) {
        y += row_height(l, k);
    }
    y
}

// How high the timer's row is. There is none where nothing is on the timer and no buffer is handed over.
pub(crate) fn timer_height(l: Lent<'_>, s: Option<&Timer>) -> Option<u32>
    ensures { IfSome result (λ high. (6 ≤ high) × (high ≤ 700000)) }
{
    match rows_at(l, Place::OnTimer) {
        0 if s.is_none() => None,
        0 => Some(TIMED_ROW + 6),
        n => Some(TIMED_ROW * n + 6),
    }
}
