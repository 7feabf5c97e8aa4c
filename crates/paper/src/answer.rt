// An answer is accepted or refused, and a broken rule is told with the record. The numbers that the papers give are definitions
// (specs/Answers).
ghost use Rattle.std.specs.Prelude.{◌≡◌};
ghost use Rattle.paper.specs.declared.answer.Refusal.TheVariants.{RuleBroken};

use board::numbers::{MsgNo, TaskNo};

// A broken rule, with the task or message that breaks it where the rule is one for each record, and R7 with byte 1 as it is.
#[derive(Clone, Copy, Debug, PartialEq, Eq)]
pub enum Rule {
    R1,
    R2(TaskNo),
    R3,
    R4(MsgNo),
    R5(TaskNo),
    R6(TaskNo),
    R7(u8),
}

#[derive(Clone, Copy, Debug, PartialEq, Eq)]
pub enum Refusal {
    WrongLength,
    RuleBroken(Rule),
    NobodyRuns,
    NoSuchMessage,
    NotHeld,
    NoSuchTask,
    BadPriority,
    NotInstallable,
    BadStatus,
    TaskBusy,
    NoneFree,
    NotQueued,
    NotItsSender,
    BadSender,
    NothingToDeliver,
    NoDelay,
    NoTimerFree,
    BadTimer,
}

#[derive(Clone, Copy, Debug, PartialEq, Eq)]
pub struct Accepted {
    pub value: u16,
    pub running: u16,
    pub delivered: u16,
}

pub type Answer = Result<Accepted, Refusal>;

// A broken rule is refusal 2.
impl From<Rule> for Refusal {
    ghost from_gives = { λ r q. q ≡ RuleBroken r };

    fn from(r: Rule) -> Refusal {
        Refusal::RuleBroken(r)
    }
}
