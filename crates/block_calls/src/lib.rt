// CODE. Claim, release and prepare: message blocks that are in no queue. Each tests the refusals of its row in the paper's order, and only
// then writes.
#![tactic(auto)]

ghost use Rattle.std.specs.Prelude.{◌≡◌};
ghost use Rattle.board.specs.Numbers.{message_meant};
ghost use Rattle.lent.specs.Lent.{board};
ghost use Rattle.paper.specs.declared.call.Call.TheVariants as calls;
ghost use Rattle.paper.specs.Effects.{lowest_free};
ghost use Rattle.stores.specs.Answers.{Runner, Made};
ghost use Rattle.stores.specs.Calls.{stepping};

use board::numbers::{MsgNo, Number, TaskNo};
use board::places::Place;
use board::records::Message;
use four_places::none_free;
use inner::refusals::held;
use lent::by_word::place_meant;
use lent::bytes::{Lent, LentMut};
use paper::answer::Refusal;
use stores::{Body, Done, Held};

// The lowest-numbered free message, if any. Places are tested in groups of four, and one by one only where a group has a free one, or where
// the board has no four more.
pub fn lowest_free(l: Lent<'_>) -> Option<MsgNo>
    ensures { result ≡ message_meant l.entry.size (lowest_free (board l.entry)) }
{
    let mut used: u16 = 0;
    while none_free(l, used) {
        used += 4;
    }
    for before in used..l.size.messages {
        let m = before + 1;
        if let Place::Free = place_meant(l, m) {
            return MsgNo::meant(l.size, m);
        }
    }
    None
}

#[tactic(auto, using(crate::proofs::Claiming::none_is_free))]
pub fn claim(l: &mut LentMut<'_>, c: Option<TaskNo>) -> Body
    requires { Runner l.old.size l.old.bytes.now c }
    ensures { Made result l.old l.new (stepping l.old.size l.old.bytes.now calls.Claim) }
{
    let c = c.ok_or(Refusal::NobodyRuns)?;
    let m = lowest_free(l.read()).ok_or(Refusal::NoneFree)?;
    l.put_place(m, Place::HeldBy(c));
    Ok(Done::rests(m.number()))
}

pub fn release(l: &mut LentMut<'_>, c: Option<TaskNo>, m: u16) -> Body
    requires { Runner l.old.size l.old.bytes.now c }
    ensures { Made result l.old l.new (stepping l.old.size l.old.bytes.now (calls.Release m)) }
{
    let Held { c: _, m } = held(l.read(), c, m)?;
    l.put_message(m, Message::none());
    l.put_place(m, Place::Free);
    Ok(Done::rests(0))
}

pub fn prepare(
    l: &mut LentMut<'_>,
    c: Option<TaskNo>,
    m: u16,
    stat: u8,
    prio: u8,
    sptr: u16,
) -> Body
    requires { Runner l.old.size l.old.bytes.now c }
    ensures { Made result l.old l.new (stepping l.old.size l.old.bytes.now (calls.Prepare m stat prio sptr)) }
{
    let Held { c: _, m } = held(l.read(), c, m)?;
    if l.size.tasks < sptr {
        return Err(Refusal::BadSender);
    }
    let u = l.read().message(m);
    l.put_message(m, u.with_stat(stat).with_prio(prio).with_sptr(sptr));
    Ok(Done::rests(0))
}
