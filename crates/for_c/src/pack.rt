// An answer as one word, for C: from the lowest bit 8 bits refusal number, 0 if accepted, then 16 bits each of value, running and
// delivered; where a rule is broken, 8 bits rule and 8 bits record in the place of the value.
ghost use Rattle.std.specs.Prelude.{◌≡◌, ◌+◌, ◌*◌, ◌<◌};
ghost use Rattle.paper.specs.Answers.{rule_number, record_number, told, number_of, handed};
ghost use Rattle.for_c.specs.Packed.{packed};

use board::numbers::Number;
use paper::answer::{Accepted, Answer, Refusal, Rule};

// The paper's number of a refusal.
pub fn refusal_number(q: Refusal) -> u8
    ensures { result ≡ number_of q }
{
    match q {
        Refusal::WrongLength => 1,
        Refusal::RuleBroken(_) => 2,
        Refusal::NobodyRuns => 3,
        Refusal::NoSuchMessage => 4,
        Refusal::NotHeld => 5,
        Refusal::NoSuchTask => 6,
        Refusal::BadPriority => 7,
        Refusal::NotInstallable => 8,
        Refusal::BadStatus => 9,
        Refusal::TaskBusy => 10,
        Refusal::NoneFree => 11,
        Refusal::NotQueued => 12,
        Refusal::NotItsSender => 13,
        Refusal::BadSender => 14,
        Refusal::NothingToDeliver => 15,
        Refusal::NoDelay => 16,
        Refusal::NoTimerFree => 17,
        Refusal::BadTimer => 18,
    }
}

// The number of a broken rule.
pub fn rule_number(r: Rule) -> u8
    ensures { result ≡ rule_number r }
{
    match r {
        Rule::R1 => 1,
        Rule::R2(_) => 2,
        Rule::R3 => 3,
        Rule::R4(_) => 4,
        Rule::R5(_) => 5,
        Rule::R6(_) => 6,
        Rule::R7(_) => 7,
    }
}

// The task or message that breaks it, 0 for R1 and R3, byte 1 for R7.
pub fn record_number(r: Rule) -> u16
    ensures { result ≡ record_number r }
{
    match r {
        Rule::R1 => 0,
        Rule::R2(k) => k.number(),
        Rule::R3 => 0,
        Rule::R4(m) => m.number(),
        Rule::R5(k) => k.number(),
        Rule::R6(k) => k.number(),
        Rule::R7(c) => c as u16,
    }
}

// A sixteen-bit word, wide.
fn wide(w: u16) -> u64
    ensures { (result ≡ w) × (result < 65536) }
{
    w as u64
}

// The rule and the record that a refusal names, the rule in the lowest 8 bits; 0 but for a broken rule.
fn named(q: Refusal) -> u64
    ensures { (result ≡ (told q).rule + 256 * (told q).record_no) × (result < 16777216) }
{
    let Refusal::RuleBroken(r) = q else {
        return 0;
    };
    let rule = rule_number(r) as u64;
    let record = wide(record_number(r));
    rule + 256 * record
}

pub fn pack(a: Answer) -> u64
    ensures { result ≡ packed (handed a) }
{
    match a {
        Ok(
            Accepted {
                value,
                running,
                delivered,
            },
        ) => 256 * wide(value) + 16777216 * wide(running) + 1099511627776 * wide(delivered),
        Err(q) => refusal_number(q) as u64 + 256 * named(q),
    }
}
