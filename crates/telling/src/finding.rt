// What the check says of a board, or the conversion of an old one, in one line of words that names the broken rule and the
// record.
ghost use Rattle.std.specs.Prelude.{◌≡◌, nat_lt, IfOk};
ghost use Rattle.board.specs.Numbers.{small};
ghost use Rattle.paper.specs.Outcomes.{Outcome, check};
ghost use Rattle.paper.specs.Conversion.{convert};
ghost use Rattle.telling.specs.Findings.{finding_of};

use crate::print::thousands;
use board::numbers::Number;
use for_c::pack::{refusal_number, rule_number};
use paper::answer::{Answer, Refusal, Rule};
use rules::Edition;
use station::{check, convert};
use std::io;
use std::io::Write;

// A program reads so many bytes at most: more are not counted.
const MOST: usize = 65536;

pub(crate) fn tell_bytes<W: Write>(out: &mut W, n: usize) -> io::Result<()> {
    thousands(out, n as u64)?;
    match n {
        1 => write!(out, " byte"),
        MOST.. => write!(out, " bytes or more"),
        _ => write!(out, " bytes"),
    }
}

// R1, of today or of old boards.
fn tell_rule1<W: Write>(out: &mut W, edition: Edition) -> io::Result<()> {
    match edition {
        Edition::Today => write!(out, "bytes 2 and 3 are not zero"),
        Edition::Old => write!(out, "bytes 1 to 3 are not zero"),
    }
}

// R7: what byte 1 is, or the task that ran on an old board.
fn tell_rule7<W: Write>(out: &mut W, edition: Edition, n: u8) -> io::Result<()> {
    match edition {
        Edition::Today => write!(out, "byte 1 is {n}, and names no task that may run"),
        Edition::Old => write!(out, "the running task {n} is still due a message (MHBS)"),
    }
}

// A rule of document 01, as it is in this edition and as the record breaks it.
fn tell_fault<W: Write>(out: &mut W, edition: Edition, r: Rule) -> io::Result<()> {
    match r {
        Rule::R1 => tell_rule1(out, edition),
        Rule::R2(k) => write!(
            out,
            "the record of task {} is neither zero nor that of a task (STAT and PRIO)",
            k.number(),
        ),
        Rule::R3 => write!(
            out,
            "the task queue does not visit exactly the present tasks, in order of priority",
        ),
        Rule::R4(m) => write!(
            out,
            "the record of message {} does not go with its place",
            m.number(),
        ),
        Rule::R5(k) => write!(
            out,
            "the queue of task {} does not visit exactly the messages placed there, in order of priority",
            k.number(),
        ),
        Rule::R6(k) => write!(
            out,
            "WAIT, IWAT, INTQ and MHBS of task {} do not go together, or not with its queue",
            k.number(),
        ),
        Rule::R7(c) => tell_rule7(out, edition, c),
    }
}

// The check and the conversion give two refusals only: the length is wrong, or a rule is broken.
fn tell_reason<W: Write>(out: &mut W, edition: Edition, q: Refusal, n: usize) -> io::Result<()> {
    if let Refusal::RuleBroken(r) = q {
        write!(out, "rule {}: ", rule_number(r))?;
        return tell_fault(out, edition, r);
    }
    tell_bytes(out, n)?;
    write!(out, "; a board is 1,476")
}

// The refusal of a board of n bytes by the rules of this edition.
fn tell_refusal<W: Write>(out: &mut W, edition: Edition, q: Refusal, n: usize) -> io::Result<()> {
    write!(out, "refused ({}): ", refusal_number(q))?;
    tell_reason(out, edition, q, n)?;
    writeln!(out)
}

// The board passes, or is converted, and this task runs, 0 for none; or it is refused.
pub type Finding = Result<u16, Refusal>;

// What was answered of a board of n bytes by the rules of this edition; a refusal is told in its line.
fn found<W: Write>(out: &mut W, edition: Edition, a: Answer, n: usize) -> io::Result<Finding>
    ensures { IfOk result (λ f. f ≡ finding_of a) }
{
    if let Err(q) = a {
        tell_refusal(out, edition, q, n)?;
    }
    Ok(a.map(|a| a.running))
}

// The board is checked.
pub fn judged<W: Write>(out: &mut W, l: &[u8]) -> io::Result<Finding>
    ensures { IfOk result (λ f. f ≡ finding_of (check small l.now).answer) }
{
    let a = check(l);
    found(out, Edition::Today, a, l.len())
}

// An old board is converted where it lies, whether or not its refusal can be told.
pub fn converted<W: Write>(out: &mut W, l: &mut [u8]) -> io::Result<Finding>
    ensures answers { IfOk result (λ f. f ≡ finding_of (convert small l.old).answer) }
    ensures leaves { l.new ≡ (convert small l.old).after }
{
    let a = convert(l);
    found(out, Edition::Old, a, l.len())
}

// Who runs, 0 for none; true if one does.
pub fn tell_running<W: Write>(out: &mut W, k: u16) -> io::Result<bool>
    ensures { IfOk result (λ b. b ≡ nat_lt 0 k) }
{
    match k {
        0 => write!(out, "no task is ready to run")?,
        _ => write!(out, "task {k} runs")?,
    }
    Ok(0 < k)
}
