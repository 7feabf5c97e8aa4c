// PROGRAMS. A part of a call by itself, as a library for C: what bench/ times apart from the check, which is most of every call. It is no
// part of the station's own library.
#![tactic(auto)]

ghost use Rattle.std.specs.Prelude.{◌≡◌, cond, eqb, length};
ghost use Rattle.board.specs.Numbers.{small, message_meant, number_of_message};
ghost use Rattle.board.specs.Board.{board_of, total};
ghost use Rattle.paper.specs.Effects.{lowest_free};

use block_calls::lowest_free;
use board::numbers::{Number, Size};
use lent::bytes::Lent;

// The lowest-numbered free message of a board, 0 if none; and 0 for bytes of another length.
#[unsafe(no_mangle)]
pub extern "C" fn timed_lowest_free(board: &[u8]) -> u16
    ensures { result ≡ cond (eqb (length board.now) (total small)) (number_of_message (message_meant small (lowest_free (board_of small board.now)))) 0 }
{
    if board.len() != 1476 {
        return 0;
    }
    let l = Lent {
        size: Size::SMALL,
        bytes: board,
    };
    lowest_free(l).number()
}
