// Words that stand in more than one table: a name, and the bits of STAT.
use board::status::Status;
use std::io::Write;
use std::{fmt, io};
use telling::print::shown;
use telling::state::tell_bit;

// The name as two characters, low byte first as it is stored, and as a word.
#[derive(Clone, Copy)]
pub(crate) struct Name(pub(crate) u16);

impl fmt::Display for Name {
    fn fmt<W: fmt::Write>(&self, f: &mut fmt::Formatter<W>) -> fmt::Result {
        let [low, high] = self.0.to_le_bytes();
        let low = char::from(shown(low));
        let high = char::from(shown(high));
        write!(f, "  '{low}{high}' {:04X}H", self.0)
    }
}

// The words of each bit that is set.
pub(crate) fn tell_bits<W: Write>(out: &mut W, s: Status, bits: &[(u8, &[u8])]) -> io::Result<()> {
    for (bit, words) in bits {
        tell_bit(out, s, *bit, words)?;
    }
    Ok(())
}
