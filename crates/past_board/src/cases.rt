// A call as run_cases takes it, a case: the length of the board as a word, the call of nine bytes (kind, three words, STAT,
// PRIO), and the board before it.
use paper::call::Call;
use std::io;
use std::io::Write;

// A call as its kind, words and bytes, zero where it takes none.
#[derive(Clone, Copy, Default)]
struct Arguments {
    kind: u8,
    a: u16,
    b: u16,
    c: u16,
    stat: u8,
    prio: u8,
}

// The kind that makes a board fresh, and one that no call has.
const FRESH: u8 = 254;

const NO_CALL: u8 = 255;

// A call of this kind that takes two words or fewer.
fn with_words(kind: u8, a: u16, b: u16) -> Arguments {
    Arguments {
        kind,
        a,
        b,
        ..Arguments::default()
    }
}

// A history has no other calls than these. The kinds are numbers as the C interface has them: run_cases reads those.
impl From<Call> for Arguments {
    fn from(call: Call) -> Arguments {
        match call {
            Call::Install {
                k,
                stat,
                prio,
                sptr,
                name,
            } => Arguments {
                c: name,
                stat,
                prio,
                ..with_words(1, k, sptr)
            },
            Call::PostInterrupt { k } => with_words(2, k, 0),
            Call::CancelTask { k } => with_words(4, k, 0),
            Call::Claim => with_words(5, 0, 0),
            Call::Prepare {
                m,
                stat,
                prio,
                sptr,
            } => Arguments {
                stat,
                prio,
                ..with_words(6, m, sptr)
            },
            Call::Release { m } => with_words(7, m, 0),
            Call::Send { m, r } => with_words(8, m, r),
            Call::Forward { m, r } => with_words(12, m, r),
            Call::ReceiveAndWait => with_words(17, 0, 0),
            Call::CancelMessage { m, r } => with_words(18, m, r),
            Call::WaitForInterrupt => with_words(19, 0, 0),
            _ => with_words(NO_CALL, 0, 0),
        }
    }
}

fn write<W: Write>(out: &mut W, given: Arguments, board: &[u8; 1476]) -> io::Result<()> {
    let [low, high] = 1476u16.to_le_bytes();
    let [a, a1] = given.a.to_le_bytes();
    let [b, b1] = given.b.to_le_bytes();
    let [c, c1] = given.c.to_le_bytes();
    out.write_all(&[
        low, high, given.kind, a, a1, b, b1, c, c1, given.stat, given.prio,
    ])?;
    out.write_all(board)
}

pub(crate) fn write_fresh<W: Write>(out: &mut W, board: &[u8; 1476]) -> io::Result<()> {
    write(out, with_words(FRESH, 0, 0), board)
}

pub(crate) fn write_case<W: Write>(out: &mut W, call: Call, board: &[u8; 1476]) -> io::Result<()> {
    write(out, Arguments::from(call), board)
}
