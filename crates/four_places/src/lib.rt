// DATA. A group of four places on lent bytes, tested together as one number (document 02, Ask 2).
#![tactic(auto)]

ghost use Rattle.std.specs.Prelude.{◌≡◌};
ghost use Rattle.lent.specs.Lent.{board};
ghost use Rattle.four_places.specs.Fours.{none_zero, none_free};

use lent::bytes::Lent;

// None of the four bytes is 0. With 1 taken off each byte of their number, a byte has a highest bit that it had not before only
// where it borrowed, and the lowest that borrows is a 0.
fn none_zero(places: &[u8; 4]) -> bool
    ensures { result ≡ none_zero places.now }
{
    let x = u32::from_le_bytes(*places);
    x.wrapping_sub(0x01010101) & !x & 0x80808080 == 0
}

// None of the messages m+1 to m+4 is free. One that the board does not have reads as free, and no byte is read for it.
pub fn none_free(l: Lent<'_>, m: u16) -> bool
    ensures { result ≡ none_free (board l.entry) m }
{
    let z = l.size;
    if (z.messages as usize) < m as usize + 4 {
        return false;
    }
    let o = 10 * (z.tasks as usize) + 8 * (z.messages as usize) + m as usize + 4;
    none_zero(&[l.bytes[o], l.bytes[o + 1], l.bytes[o + 2], l.bytes[o + 3]])
}
