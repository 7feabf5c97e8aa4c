// A call in words on one line: its name, then its arguments. Numbers of tasks and messages are decimal; STAT and PRIO, and SPTR
// and NAME of a task, are as the paper writes them. Each function answers how many columns it took.
ghost use Rattle.std.specs.Prelude.{◌≡◌, ◌+◌, ◌≤◌, length, IfOk};

use crate::print::{decimal, hex_byte, hex_word, text};
use paper::call::Call;
use std::io;
use std::io::Write;

// A number of a task or a message, which is any word.
fn tell_number<W: Write>(out: &mut W, n: u16) -> io::Result<usize>
    ensures { IfOk result (λ n. n ≤ 5) }
{
    decimal(out, n as u64)
}

// Words with a number behind them.
fn tell_one<W: Write>(out: &mut W, words: &[u8], n: u16) -> io::Result<usize>
    requires { length words.now ≤ 15 }
    ensures { IfOk result (λ n. n ≤ length words.now + 5) }
{
    Ok(text(out, words)? + tell_number(out, n)?)
}

// The same with a second number behind other words.
fn tell_two<W: Write>(
    out: &mut W,
    words: &[u8],
    m: u16,
    between: &[u8],
    r: u16,
) -> io::Result<usize>
    requires { (length words.now ≤ 15) × (length between.now ≤ 4) }
    ensures { IfOk result (λ n. n ≤ 29) }
{
    Ok(tell_one(out, words, m)? + tell_one(out, between, r)?)
}

// The wait forms of a call end so.
fn tell_wait<W: Write>(out: &mut W) -> io::Result<usize>
    ensures { IfOk result (λ n. n ≡ 9) }
{
    text(out, b" and wait")
}

fn tell_fields<W: Write>(out: &mut W, stat: u8, prio: u8) -> io::Result<usize>
    ensures { IfOk result (λ n. n ≤ 24) }
{
    Ok(
        text(out, b" stat ")?
            + hex_byte(out, stat)?
            + text(out, b" prio ")?
            + hex_byte(out, prio)?
            + text(out, b" sptr ")?,
    )
}

fn tell_install<W: Write>(
    out: &mut W,
    k: u16,
    stat: u8,
    prio: u8,
    sptr: u16,
    name: u16,
) -> io::Result<usize>
    ensures { IfOk result (λ n. n ≤ 53) }
{
    Ok(
        tell_one(out, b"install ", k)?
            + tell_fields(out, stat, prio)?
            + hex_word(out, sptr)?
            + text(out, b" name ")?
            + hex_word(out, name)?,
    )
}

fn tell_prepare<W: Write>(out: &mut W, m: u16, stat: u8, prio: u8, sptr: u16) -> io::Result<usize>
    ensures { IfOk result (λ n. n ≤ 53) }
{
    Ok(tell_one(out, b"prepare ", m)? + tell_fields(out, stat, prio)? + tell_number(out, sptr)?)
}

// At most 53 columns, and no line end.
pub fn tell_call<W: Write>(out: &mut W, call: Call) -> io::Result<usize>
    ensures { IfOk result (λ n. n ≤ 53) }
{
    match call {
        Call::Install {
            k,
            stat,
            prio,
            sptr,
            name,
        } => tell_install(out, k, stat, prio, sptr, name),
        Call::PostInterrupt { k } => tell_one(out, b"post ", k),
        Call::Find { name } => Ok(text(out, b"find ")? + hex_word(out, name)?),
        Call::CancelTask { k } => tell_one(out, b"cancel task ", k),
        Call::Claim => text(out, b"claim"),
        Call::Prepare {
            m,
            stat,
            prio,
            sptr,
        } => tell_prepare(out, m, stat, prio, sptr),
        Call::Release { m } => tell_one(out, b"release ", m),
        Call::Send { m, r } => tell_two(out, b"send ", m, b" to ", r),
        Call::SendAndWait { m, r } => Ok(tell_two(out, b"send ", m, b" to ", r)? + tell_wait(out)?),
        Call::Resend { m } => tell_one(out, b"resend ", m),
        Call::ResendAndWait { m } => Ok(tell_one(out, b"resend ", m)? + tell_wait(out)?),
        Call::Forward { m, r } => tell_two(out, b"forward ", m, b" to ", r),
        Call::ForwardAndWait { m, r } => Ok(
            tell_two(out, b"forward ", m, b" to ", r)? + tell_wait(out)?,
        ),
        Call::Return { m } => tell_one(out, b"return ", m),
        Call::ReturnAndWait { m } => Ok(tell_one(out, b"return ", m)? + tell_wait(out)?),
        Call::Receive => text(out, b"receive"),
        Call::ReceiveAndWait => text(out, b"receive and wait"),
        Call::CancelMessage { m, r } => tell_two(out, b"cancel message ", m, b" at ", r),
        Call::WaitForInterrupt => text(out, b"wait for interrupt"),
    }
}
