// What bit 0 of PRIO says, in one word.
ghost use Rattle.std.specs.Prelude.{◌≡◌, [], ◌∷◌, cond};
ghost use Rattle.board.specs.Status.{fifo};

use board::priority::fifo;

// FIFO or LIFO.
pub fn order(prio: u8) -> &'static str
    ensures { result.now ≡ cond (fifo prio) 70 76 ∷ 73 ∷ 70 ∷ 79 ∷ [] }
{
    if fifo(prio) { "FIFO" } else { "LIFO" }
}
