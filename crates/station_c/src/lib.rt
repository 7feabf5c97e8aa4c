// PROMISE. What C links, over the crate station: the names, arguments and packing are fixed. A lent slice is a pointer and a
// length.
#![tactic(auto)]

ghost use Rattle.std.specs.Prelude.{◌≡◌};
ghost use Rattle.board.specs.Numbers.{small};
ghost use Rattle.paper.specs.Answers.{handed};
ghost use Rattle.paper.specs.Outcomes.{Outcome, fresh, check};
ghost use Rattle.paper.specs.Conversion.{convert};
ghost use Rattle.timing.specs.Timing.{start, tick};
ghost use Rattle.for_c.specs.Packed.{packed};
ghost use Rattle.for_c.specs.Asked.{asked_of};
ghost use Rattle.station_c.specs.Called.{word_for, left_for, TellsTimed};

use for_c::asked::call_of_kind;
use for_c::pack::pack;

#[unsafe(no_mangle)]
pub extern "C" fn station_fresh(board: &mut [u8]) -> u64
    ensures { (result ≡ packed (handed (fresh small board.old).answer)) × (board.new ≡ (fresh small board.old).after) }
{
    pack(station::fresh(board))
}

#[unsafe(no_mangle)]
pub extern "C" fn station_check(board: &[u8]) -> u64
    ensures { result ≡ packed (handed (check small board.now).answer) }
{
    pack(station::check(board))
}

#[unsafe(no_mangle)]
pub extern "C" fn station_convert(board: &mut [u8]) -> u64
    ensures { (result ≡ packed (handed (convert small board.old).answer)) × (board.new ≡ (convert small board.old).after) }
{
    pack(station::convert(board))
}

// A kind that is no call is told at once, with a number that no refusal has.
#[unsafe(no_mangle)]
pub extern "C" fn station_call(
    board: &mut [u8],
    kind: u8,
    a: u16,
    b: u16,
    c: u16,
    stat: u8,
    prio: u8,
) -> u64
    ensures { (result ≡ word_for board.old (asked_of kind a b c stat prio)) × (board.new ≡ left_for board.old (asked_of kind a b c stat prio)) }
{
    let Some(call) = call_of_kind(kind, a, b, c, stat, prio) else {
        return 255;
    };
    pack(station::step(board, call))
}

#[unsafe(no_mangle)]
pub extern "C" fn station_start(board: &mut [u8], timer: &mut [u8], m: u16, delay: u16) -> u64
    ensures { TellsTimed result board.new timer.new (start small board.old timer.old m delay) }
{
    pack(station::start(board, timer, m, delay))
}

#[unsafe(no_mangle)]
pub extern "C" fn station_tick(board: &mut [u8], timer: &mut [u8]) -> u64
    ensures { TellsTimed result board.new timer.new (tick small board.old timer.old) }
{
    pack(station::tick(board, timer))
}
