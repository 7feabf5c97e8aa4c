// CODE. The check of a board: does it keep R1 to R7, and who runs, or which rule is broken and at which record? Each answer is proved to be
// the definition's (paper, Rules and Named). Each record is looked at a bounded number of times and each queue walked once, and once more
// where R5 is broken; the looks at the records count for R3 and R5. The rules of today and those of saved boards (paper, Conversion) share
// R2 to R6, but that no message was on the timer then.
#![tactic(auto)]

pub mod records;
pub mod runner;

ghost use Rattle.std.specs.Prelude.{◌≡◌, ◌<◌, get_or, take, drop};
ghost use Rattle.lent.specs.Lent.{board};
ghost use Rattle.rules.specs.Checked.{between_of, rule1_of, checked_of};

use crate::records::{rule1, survey_messages, survey_tasks};
use crate::runner::rule7_of;
use board::numbers::TaskNo;
use lent::bytes::{Lent, byte};
use order_rules::tasks::rule3;
use paper::answer::Rule;
use queue_rules::rule5;

// Which rules: those of today, or those by which boards were saved before.
#[derive(Clone, Copy)]
pub enum Edition {
    Today,
    Old,
}

// What the check found: that this task runs, or a broken rule and the record.
pub type Checked = Result<Option<TaskNo>, Rule>;

// R2 to R6 by this edition; where they hold, the first ready task.
fn check_2_to_6(edition: Edition, l: Lent<'_>) -> Checked
    requires { l.size.tasks < 256 }
    ensures { result ≡ between_of edition l.entry.size (board l.entry) }
{
    let tasks = survey_tasks(l);
    if let Some(k) = tasks.breaks2 {
        return Err(Rule::R2(k));
    }
    let first = rule3(l, tasks.present)?;
    let messages = survey_messages(edition, l);
    if let Some(m) = messages.breaks4 {
        return Err(Rule::R4(m));
    }
    if let Some(k) = rule5(l, messages.queued) {
        return Err(Rule::R5(k));
    }
    if let Some(k) = tasks.breaks6 {
        return Err(Rule::R6(k));
    }
    Ok(first)
}

// R1: bytes 2 and 3 are zero; byte 1 too where boards were saved.
fn rule1_of(edition: Edition, l: &[u8]) -> bool
    ensures { result ≡ rule1_of edition (get_or l.now 1 0) (take 2 (drop 2 l.now)) }
{
    match edition {
        Edition::Today => rule1(l),
        Edition::Old => byte(l, 1) == 0 && rule1(l),
    }
}

// The check by the rules of this edition. There is one for both, so that the library has it once and compiled for its size.
pub fn check_rules(edition: Edition, l: Lent<'_>) -> Checked
    requires { l.size.tasks < 256 }
    ensures { result ≡ checked_of edition l.entry.size (board l.entry) }
{
    if !rule1_of(edition, l.bytes) {
        return Err(Rule::R1);
    }
    let first = check_2_to_6(edition, l)?;
    rule7_of(edition, l, first)
}
