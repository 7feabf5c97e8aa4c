// PROMISE. The station's board for its callers: making a fresh board, checking one, converting a saved one, the nineteen calls, and start and
// tick with a timer buffer, on lent bytes of any length and content. Read for the contracts: each says the answer and every byte afterwards
// by one definition (paper, Outcomes and Conversion; timing, Timing).
#![tactic(auto)]

mod both_pass;

ghost use Rattle.std.specs.Prelude.{◌≡◌, length, eqb, ◌≤◌};
ghost use Rattle.board.specs.Numbers.{small};
ghost use Rattle.board.specs.Board.{total, board_of};
ghost use Rattle.paper.specs.Outcomes.{Ends, effect, fresh, check};
ghost use Rattle.paper.specs.Conversion.{convert};
ghost use Rattle.timing.specs.Timing.{EndsTimed, start, tick};
ghost use Rattle.timer.specs.Timer.{timer_length};
ghost use Rattle.stores.specs.Answers.{Runs};
ghost use Rattle.stores.specs.Calls.{called};
ghost use Rattle.timer_calls.specs.Stores.{start_called, tick_called};
ghost use Rattle.rules.specs.Checked.{checked_of};

use board::numbers::{Number, Size, TaskNo};
use both_pass::both_pass;
use calls::make_call;
use lent::bytes::{Lent, LentMut, put_running};
use paper::answer::{Accepted, Answer, Refusal};
use paper::call::Call;
use rules::{Checked, Edition, check_rules};
use timer_calls::start::make_start;
use timer_calls::tick::make_tick;

// The board is made all zeros, whatever it held: accepted with three zeros, or 1.
pub fn fresh(l: &mut [u8]) -> Answer
    ensures { Ends result l.new (fresh small l.old) }
{
    if !sized(l) {
        return Err(Refusal::WrongLength);
    }
    l.fill(0);
    Ok(Accepted {
        value: 0,
        running: 0,
        delivered: 0,
    })
}

// Can this board exist? Accepted with the running task, or 1, or 2 where a rule is broken. It writes nothing.
pub fn check(l: &[u8]) -> Answer
    ensures { Ends result l.now (check small l.now) }
{
    if !sized(l) {
        return Err(Refusal::WrongLength);
    }
    let c = checked_small(Edition::Today, l)?;
    Ok(Accepted {
        value: 0,
        running: c.number(),
        delivered: 0,
    })
}

// A saved board of the time when byte 1 was zero: accepted with the task that ran then, which byte 1 now holds, or 1, or 2 where an old rule
// is broken. Nothing else is changed.
pub fn convert(l: &mut [u8]) -> Answer
    ensures { Ends result l.new (convert small l.old) }
{
    if !sized(l) {
        return Err(Refusal::WrongLength);
    }
    let c = checked_small(Edition::Old, l)?;
    put_running(l, c);
    Ok(Accepted {
        value: 0,
        running: c.number(),
        delivered: 0,
    })
}

// A call: document 01's effect of it on these bytes, whatever they are.
pub fn step(l: &mut [u8], call: Call) -> Answer
    ensures { Ends result l.new (effect small l.old call) }
{
    if !sized(l) {
        return Err(Refusal::WrongLength);
    }
    let c = checked_small(Edition::Today, l)?;
    call_small(l, c, call)
}

// A timer is started on message m: document 02's effect of it on the bytes of a board and of a timer buffer, whatever they are.
pub fn start(l: &mut [u8], s: &mut [u8], m: u16, delay: u16) -> Answer
    ensures { EndsTimed result l.new s.new (start small l.old s.old m delay) }
{
    let c = both_pass(l, s)?;
    start_small(l, s, c, m, delay)
}

// A tick, with the timer buffer that is lent to every start and tick.
pub fn tick(l: &mut [u8], s: &mut [u8]) -> Answer
    ensures { EndsTimed result l.new s.new (tick small l.old s.old) }
{
    let c = both_pass(l, s)?;
    tick_small(l, s, c)
}

// Who runs on a board that keeps R1 to R7 of this edition. The one place where the library asks the check, so that it is compiled for this
// size.
fn checked_small(edition: Edition, l: &[u8]) -> Checked
    requires { total small ≤ length l.now }
    ensures { result ≡ checked_of edition small (board_of small l.now) }
{
    check_rules(
        edition,
        Lent {
            size: Size::SMALL,
            bytes: l,
        },
    )
}

// The call on these bytes, which pass; c runs, or nobody.
fn call_small(l: &mut [u8], c: Option<TaskNo>, call: Call) -> Answer
    requires { Runs small l.old c }
    ensures { Ends result l.new (called small l.old call) }
{
    let mut board = LentMut {
        size: Size::SMALL,
        bytes: l,
    };
    make_call(&mut board, c, call)
}

// A start, and a tick, on these bytes and those of a timer buffer for them.
fn start_small(l: &mut [u8], s: &mut [u8], c: Option<TaskNo>, m: u16, delay: u16) -> Answer
    requires { Runs small l.old c × (length s.old ≡ timer_length) }
    ensures { EndsTimed result l.new s.new (start_called small l.old s.old m delay) }
{
    let mut board = LentMut {
        size: Size::SMALL,
        bytes: l,
    };
    make_start(&mut board, s, c, m, delay)
}

fn tick_small(l: &mut [u8], s: &mut [u8], c: Option<TaskNo>) -> Answer
    requires { Runs small l.old c × (length s.old ≡ timer_length) }
    ensures { EndsTimed result l.new s.new (tick_called small l.old s.old) }
{
    let mut board = LentMut {
        size: Size::SMALL,
        bytes: l,
    };
    make_tick(&mut board, s, c)
}

// A board is exactly so many bytes.
fn sized(l: &[u8]) -> bool
    ensures { result ≡ eqb (length l.now) (total small) }
{
    l.len() == 1476
}
