// A spot in the queue of a task: where a priority goes, or where a message stands.
ghost use Rattle.std.specs.Prelude.{◌≡◌};
ghost use Rattle.links.specs.Queue.{goes_before};
ghost use Rattle.stores.specs.Moves.{spot_for, spot_of};
ghost use Rattle.message_queue.specs.Spots.{message_spot};

use board::numbers::{MsgNo, TaskNo};
use board::priority::number;
use changes::spot::{Spot, seek};
use lent::bytes::Lent;

// One of priority number p goes before one of number x: LIFO before its equals, FIFO behind them.
pub fn goes_before(fifo: bool, p: u8, x: u8) -> bool
    ensures { result ≡ goes_before fifo p x }
{
    if fifo { p < x } else { p <= x }
}

// Where a message of priority number p goes in the queue of r.
pub fn spot_for_message(l: Lent<'_>, r: TaskNo, fifo: bool, p: u8) -> Spot<MsgNo>
    ensures { result ≡ message_spot l.entry.size (spot_for l.entry.size l.entry.bytes.now r.0 fifo p) }
{
    seek(
        l.size.messages,
        l.task(r).first(l.size),
        |m| l.next_message(m),
        |m| goes_before(fifo, p, number(l.prio(m))),
    )
}

// Where the message x stands in the queue of r.
pub fn spot_of_message(l: Lent<'_>, r: TaskNo, x: MsgNo) -> Spot<MsgNo>
    ensures { result ≡ message_spot l.entry.size (spot_of l.entry.size l.entry.bytes.now r.0 x.0) }
{
    seek(
        l.size.messages,
        l.task(r).first(l.size),
        |m| l.next_message(m),
        |m| m == x,
    )
}
