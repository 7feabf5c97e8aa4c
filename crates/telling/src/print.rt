// Text on what is written to. Each function answers how many columns it took.
ghost use Rattle.std.specs.Prelude.{◌≡◌, ◌+◌, ◌-◌, ◌%◌, ◌<◌, ◌≤◌, length, IfOk};
ghost use Rattle.io.specs.Digits.{IsDigitCount};

use crate::digits_of;
use std::io;
use std::io::Write;

pub fn text<W: Write>(out: &mut W, t: &[u8]) -> io::Result<usize>
    ensures { IfOk result (λ n. n ≡ length t.now) }
{
    out.write_all(t)?;
    Ok(t.len())
}

// Spaces up to the width of a column, of which some is taken.
pub fn pad<W: Write>(out: &mut W, taken: usize, width: usize) -> io::Result<usize>
    ensures { IfOk result (λ n. n ≡ taken + (width - taken)) }
{
    for _ in taken..width {
        text(out, b" ")?;
    }
    Ok(taken.max(width))
}

// `write!` does not say how many digits it writes, which the columns need: so the digits are made first.
pub fn decimal<W: Write>(out: &mut W, n: u64) -> io::Result<usize>
    ensures { IfOk result (λ k. (IsDigitCount 10 1 n k) × (k ≤ 20)) }
{
    let mut digits = [0u8; 20];
    let k = digits_of(n, &mut digits);
    text(out, &digits[..k])?;
    Ok(k)
}

// A number at the right end of its column.
pub fn decimal_in<W: Write>(out: &mut W, n: u64, width: usize) -> io::Result<usize>
    ensures { IfOk result (λ n. width ≤ n) }
{
    let mut digits = [0u8; 20];
    let k = digits_of(n, &mut digits);
    let all = pad(out, k, width)?;
    text(out, &digits[..k])?;
    Ok(all)
}

// A number below a million, with a comma before its last three digits.
pub fn thousands<W: Write>(out: &mut W, n: u64) -> io::Result<usize>
    ensures { IfOk result (λ n. n ≤ 24) }
{
    if n < 1000 {
        return decimal(out, n);
    }
    Ok(
        decimal(out, n / 1000)?
            + text(
                out,
                &[b',', last_digit(n / 100), last_digit(n / 10), last_digit(n)],
            )?,
    )
}

pub fn last_digit(n: u64) -> u8
    ensures { result ≡ 48 + n % 10 }
{
    (48 + n % 10) as u8
}

// The last hexadecimal digit of a word. `write!` has them too, but does not say how many it writes.
fn hex_digit(w: u16) -> u8 {
    match (w % 16) as u8 {
        d @ 0..=9 => b'0' + d,
        d => b'A' - 10 + d,
    }
}

// A byte as the paper writes it, with an H behind it.
pub fn hex_byte<W: Write>(out: &mut W, b: u8) -> io::Result<usize>
    ensures { IfOk result (λ n. n ≡ 3) }
{
    let w = b as u16;
    text(out, &[hex_digit(w / 16), hex_digit(w), b'H'])
}

// A word likewise.
pub fn hex_word<W: Write>(out: &mut W, w: u16) -> io::Result<usize>
    ensures { IfOk result (λ n. n ≡ 5) }
{
    text(
        out,
        &[
            hex_digit(w / 4096),
            hex_digit(w / 256),
            hex_digit(w / 16),
            hex_digit(w),
            b'H',
        ],
    )
}

// A byte as a character that can be printed: a dot stands for one that cannot.
pub fn shown(c: u8) -> u8
    ensures { (31 < result) × (result < 127) }
{
    match c {
        b' '..=b'~' => c,
        _ => b'.',
    }
}
