// A message's record: R4 asks for zeros of a free one, and of another, whose task is there or not, for what its place needs.
ghost use Rattle.std.specs.Prelude.{◌&&◌, ◌≡◌, eqb, ltb};
ghost use Rattle.board.specs.Status.{fifo};
ghost use Rattle.paper.specs.Rules.{zero_message, good_pointers};

use board::numbers::Size;
use board::priority::fifo;
use board::records::Message;

pub fn zero_message(u: Message) -> bool
    ensures { result ≡ zero_message u }
{
    // field by field: `==` with the record of zeros is slower
    u.stat == 0 && u.prio == 0 && u.link == 0 && u.rptr == 0 && u.sptr == 0
}

fn good_pointers(z: Size, u: Message) -> bool
    ensures { result ≡ good_pointers z u }
{
    u.rptr <= z.tasks && u.sptr <= z.tasks
}

// A held message: RPTR and SPTR in range, LINK 0, its holder there.
pub fn good_held(z: Size, u: Message, there: bool) -> bool
    ensures { result ≡ (good_pointers z u && eqb u.link 0 && there) }
{
    good_pointers(z, u) && u.link == 0 && there
}

// A queued message: RPTR and SPTR in range, PRIO odd and below FFH, its receiver there. That is asked first, so that the receiver's status is
// on its way while the rest is tested.
pub fn good_queued(z: Size, u: Message, there: bool) -> bool
    ensures { result ≡ (good_pointers z u && fifo u.prio && ltb u.prio 0xFF && there) }
{
    there && good_pointers(z, u) && fifo(u.prio) && u.prio < 0xFF
}

// A message on the timer: RPTR and SPTR in range, LINK 0, its SPTR there, PRIO below FEH.
pub fn good_on_timer(z: Size, u: Message, there: bool) -> bool
    ensures { result ≡ (good_pointers z u && eqb u.link 0 && there && ltb u.prio 0xFE) }
{
    good_held(z, u, there) && u.prio < 0xFE
}
