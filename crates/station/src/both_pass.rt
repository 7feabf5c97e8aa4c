// Who runs on a board that passes, with a timer buffer that is good for it; or the refusal 1, 2 or 18, which start and tick give first.
ghost use Rattle.std.specs.Prelude.{◌≡◌};
ghost use Rattle.station.specs.BothPass.{both_pass};

use crate::{checked_small, sized};
use board::numbers::{Size, TaskNo};
use lent::bytes::Lent;
use paper::answer::Refusal;
use rules::Edition;
use timer_rules::good_timer;

pub fn both_pass(l: &[u8], s: &[u8]) -> Result<Option<TaskNo>, Refusal>
    ensures { result ≡ both_pass l.now s.now }
{
    if !sized(l) {
        return Err(Refusal::WrongLength);
    }
    let c = checked_small(Edition::Today, l)?;
    let board = Lent {
        size: Size::SMALL,
        bytes: l,
    };
    if !good_timer(board, s) {
        return Err(Refusal::BadTimer);
    }
    Ok(c)
}
