// PROGRAM. Cases from standard input, one after the other: the length of the board as a word, a call of nine bytes (kind, three
// words, STAT, PRIO), and the board. Kind 0 checks the board, kind 254 makes it fresh, kind 253 converts an old one; kind 200
// starts a timer for the message and with the delay of the first two words, and kind 201 is a tick: with these two, the length of
// the timer buffer as a word and the buffer come behind the board. For each it writes a line: refusal number, value, running,
// delivered, broken rule and its record, then each byte of the board that changed, as place=value, and each of the timer buffer,
// as tplace=value. So any other maker's answers can be compared with ours as text.
#![tactic(auto)]

ghost use Rattle.std.specs.Prelude.{◌≤◌};

use for_c::asked::call_of_kind;
use for_c::pack::{record_number, refusal_number, rule_number};
use paper::answer::{Accepted, Answer, Refusal};
use paper::call::Call;
use std::io;
use std::io::{ErrorKind, Read, Write};

// What a case asks for. Start and tick are handed the timer buffer too.
#[derive(Clone, Copy)]
enum Request {
    Check,
    Fresh,
    Convert,
    Start { m: u16, delay: u16 },
    Tick,
    Make(Call),
    NoCall,
}

// Why no case is answered any more.
#[derive(Drop)]
enum Stop {
    End,
    CutShort(&'static str),
    Failed(io::Error),
}

impl From<io::Error> for Stop {
    fn from(e: io::Error) -> Stop {
        Stop::Failed(e)
    }
}

// All of the space is read, or the input ends before.
fn read_whole<R: Read>(input: &mut R, space: &mut [u8], before: Stop) -> Result<(), Stop> {
    match input.read_exact(space) {
        Ok(()) => Ok(()),
        Err(e) if e.kind() == ErrorKind::UnexpectedEof => Err(before),
        Err(e) => Err(Stop::Failed(e)),
    }
}

// The broken rule and its record, zeros where the refusal is another.
fn print_rule<W: Write>(out: &mut W, q: Refusal) -> io::Result<()> {
    let Refusal::RuleBroken(r) = q else {
        return write!(out, "0 0");
    };
    write!(out, "{} {}", rule_number(r), record_number(r))
}

fn print_answer<W: Write>(out: &mut W, a: Answer) -> io::Result<()> {
    match a {
        Ok(
            Accepted {
                value,
                running,
                delivered,
            },
        ) => write!(out, "0 {value} {running} {delivered} 0 0"),
        Err(q) => {
            write!(out, "{} 0 0 0 ", refusal_number(q))?;
            print_rule(out, q)
        }
    }
}

// Each byte that changed, behind the mark of its buffer.
fn print_changes<W: Write>(out: &mut W, mark: &str, before: &[u8], after: &[u8]) -> io::Result<()> {
    for (i, (was, is)) in before.iter().zip(after).enumerate() {
        if was != is {
            write!(out, " {mark}{i}={is}")?;
        }
    }
    Ok(())
}

// The call by its kind and first words, and as one of the nineteen where it is one.
fn request_of(kind: u8, a: u16, b: u16, call: Option<Call>) -> Request {
    match kind {
        0 => Request::Check,
        200 => Request::Start { m: a, delay: b },
        201 => Request::Tick,
        253 => Request::Convert,
        254 => Request::Fresh,
        _ => call.map_or(Request::NoCall, Request::Make),
    }
}

fn answer_to<W: Write>(
    out: &mut W,
    request: Request,
    board: &mut [u8],
    timer: &mut [u8],
) -> io::Result<()> {
    match request {
        Request::Check => print_answer(out, station::check(board)),
        Request::Fresh => print_answer(out, station::fresh(board)),
        Request::Convert => print_answer(out, station::convert(board)),
        Request::Start { m, delay } => print_answer(out, station::start(board, timer, m, delay)),
        Request::Tick => print_answer(out, station::tick(board, timer)),
        Request::Make(call) => print_answer(out, station::step(board, call)),
        Request::NoCall => write!(out, "255 0 0 0 0 0"),
    }
}

// The timer buffer of n bytes is read, what is asked is made on copies of board and buffer, and its line is written.
fn on_timer<R: Read, W: Write, const N: usize>(
    input: &mut R,
    out: &mut W,
    request: Request,
    board: &[u8],
    after: &mut [u8],
    n: usize,
) -> Result<(), Stop>
    requires { (n ≤ N) × (N ≤ 65536) }
{
    let mut timer = [0u8; N];
    read_whole(input, &mut timer[..n], Stop::CutShort("timer buffer"))?;
    let mut left = timer;
    answer_to(out, request, after, &mut left[..n])?;
    print_changes(out, "", board, after)?;
    print_changes(out, "t", &timer[..n], &left[..n])?;
    Ok(write!(out, "\n")?)
}

// The length of the timer buffer comes before it. Where none is handed over there is none to read.
fn timer_length<R: Read>(input: &mut R, request: Request) -> Result<u16, Stop> {
    let (Request::Start { .. } | Request::Tick) = request else {
        return Ok(0);
    };
    let mut length = [0u8; 2];
    read_whole(input, &mut length, Stop::CutShort("timer buffer"))?;
    Ok(u16::from_le_bytes(length))
}

// The board of n bytes is read, and the rest of the case. The large buffers cost more than the call, so they are for long ones
// only.
fn on_board<R: Read, W: Write, const N: usize>(
    input: &mut R,
    out: &mut W,
    request: Request,
    n: usize,
) -> Result<(), Stop>
    requires { (n ≤ N) × (N ≤ 65536) }
{
    let mut board = [0u8; N];
    read_whole(input, &mut board[..n], Stop::CutShort("board"))?;
    let mut after = board;
    let end = timer_length(input, request)? as usize;
    if end <= 64 {
        return on_timer::<R, W, 64>(input, out, request, &board[..n], &mut after[..n], end);
    }
    on_timer::<R, W, 65536>(input, out, request, &board[..n], &mut after[..n], end)
}

fn one_case<R: Read, W: Write>(input: &mut R, out: &mut W) -> Result<(), Stop> {
    let mut head = [0u8; 11];
    read_whole(input, &mut head[..1], Stop::End)?;
    read_whole(input, &mut head[1..], Stop::CutShort("call"))?;
    let [low, high, kind, a, a1, b, b1, c, c1, stat, prio] = head;
    let a = u16::from_le_bytes([a, a1]);
    let b = u16::from_le_bytes([b, b1]);
    let c = u16::from_le_bytes([c, c1]);
    let request = request_of(kind, a, b, call_of_kind(kind, a, b, c, stat, prio));
    let n = u16::from_le_bytes([low, high]) as usize;
    if n <= 4096 {
        return on_board::<R, W, 4096>(input, out, request, n);
    }
    on_board::<R, W, 65536>(input, out, request, n)
}

// The cases one after the other, as many as there are.
fn answer_all<R: Read, W: Write>(input: &mut R, out: &mut W) -> Result<(), Stop> {
    for _ in 0..u64::MAX {
        one_case(input, out)?;
    }
    Ok(())
}

// Nothing is read ahead or kept back, so that who hands over the cases may wait for each line.
fn main(rt: HostRuntime) -> io::Result<()> {
    let mut out = rt.stdout();
    match answer_all(&mut rt.stdin(), &mut out) {
        Err(Stop::Failed(e)) => return Err(e),
        Err(Stop::CutShort(what)) => write!(out, "error: the last {what} is cut short\n")?,
        Ok(()) | Err(Stop::End) => {}
    }
    out.flush()
}
