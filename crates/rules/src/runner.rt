// R7: of the task that byte 1 names, or, where boards were saved, of the first ready task. R3's walk met that one.
ghost use Rattle.std.specs.Prelude.{◌≡◌};
ghost use Rattle.lent.specs.Lent.{board};
ghost use Rattle.board.specs.Numbers.{number_of_task};
ghost use Rattle.rules.specs.Checked.{leads_with, ran_of, old_ran_of, ran_by};

use crate::{Checked, Edition};
use board::numbers::{Number, TaskNo};
use board::priority::number;
use board::status::Status;
use lent::bytes::{Lent, byte};
use paper::answer::Rule;

// Task c is ready, of no greater priority number than the first ready task f, and due no message.
fn leads(l: Lent<'_>, c: Option<TaskNo>, f: TaskNo) -> bool
    ensures { result ≡ leads_with (board l.entry) (number_of_task c) f.0 }
{
    let Some(k) = c else {
        return false;
    };
    let t = l.task(k);
    t.ready() && number(t.prio) <= number(l.task(f).prio) && !t.stat.has(Status::MHBS)
}

// R7 of today. Nobody ready has a smaller priority number than the first ready task, so nobody else is looked at.
fn rule7(l: Lent<'_>, first: Option<TaskNo>) -> Checked
    ensures { result ≡ ran_of l.entry.size (board l.entry) first }
{
    let c = byte(l.bytes, 1);
    let meant = TaskNo::meant(l.size, c as u16);
    let runs = match first {
        Some(f) => leads(l, meant, f),
        None => c == 0,
    };
    if runs { Ok(meant) } else { Err(Rule::R7(c)) }
}

// R7 of saved boards: the first ready task ran.
fn old_rule7(l: Lent<'_>, first: Option<TaskNo>) -> Checked
    ensures { result ≡ old_ran_of (board l.entry) first }
{
    match first {
        Some(k) if l.task(k).stat.has(Status::MHBS) => { Err(Rule::R7((k.number() % 256) as u8)) }
        _ => Ok(first),
    }
}

// R7 by this edition, where this is the first ready task; and who runs.
pub fn rule7_of(edition: Edition, l: Lent<'_>, first: Option<TaskNo>) -> Checked
    ensures { result ≡ ran_by edition l.entry.size (board l.entry) first }
{
    match edition {
        Edition::Today => rule7(l, first),
        Edition::Old => old_rule7(l, first),
    }
}
