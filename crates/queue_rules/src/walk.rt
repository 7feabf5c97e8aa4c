// A walk along the links of a queue, of messages or of tasks alike: it goes on while each link leads to a record that belongs there, and
// counts them.
ghost use Rattle.std.specs.Prelude.{◌≡◌, ◌-◌, ℕ, Bool, false, Option, Some, None};
ghost use Rattle.queue_rules.specs.Walks.{turned, visited};

use board::numbers::Number;

// One link followed: on to the next record, with the priority number of this one; to the end; or a record that does not belong there, or a
// link that leads beyond the board.
#[derive(Clone, Copy)]
pub enum Turn<N> {
    Next { at: N, low: u8 },
    End,
    Stray,
}

// A queue: where its links lead, the priority numbers, and who belongs there, each by the number of a record.
pub trait Queue: Copy {
    type At: Number + Copy;

    ghost meant: { Self → ℕ → Option Self.At };

    ghost next: { Self → ℕ → ℕ };

    ghost rank: { Self → ℕ → ℕ };

    ghost good: { Self → ℕ → Bool };

    fn turn(self, at: Self::At, low: u8) -> Turn<Self::At>
        ensures { result ≡ turned (meant self) (next self) (rank self) (good self) (Self.At.number at) low };

    // a word that means a record is its number, and not 0
    ghost means: { (q : Self) (w : ℕ) (x : Self.At) → meant q w ≡ Some x → (Self.At.number x ≡ w) × (w ≡ 0 → ⊥) };

    // where it means none, nothing belongs
    ghost beyond: { (q : Self) (w : ℕ) → meant q w ≡ None → good q w ≡ false };
}

// The walk from a record on, behind so many seen and the priority number low, of at most so many in all: how many it saw, if it ended
// and did not stray. What it carries from turn to turn is a number and not a Turn, which would cost a third.
pub fn walk<Q: Queue>(q: Q, from: Q::At, least: u8, before: u32, most: u32) -> Option<u32>
    requires { Q.meant q (Q.At.number from) ≡ Some from }
    ensures { result ≡ visited (Q.next q) (Q.rank q) (Q.good q) (most - before) (Q.At.number from) least before }
{
    let mut at = from;
    let mut low = least;
    for seen in before..most {
        match q.turn(at, low) {
            Turn::Next { at: j, low: p } => {
                at = j;
                low = p;
            }
            Turn::End => {
                return Some(seen + 1);
            }
            Turn::Stray => {
                return None;
            }
        }
    }
    None
}
