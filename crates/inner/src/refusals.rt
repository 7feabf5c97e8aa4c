// Refusals 3 to 6, which many calls share.
ghost use Rattle.std.specs.Prelude.{◌≡◌};
ghost use Rattle.lent.specs.Lent.{board};
ghost use Rattle.stores.specs.Answers.{Runner, held_of, present_meant};

use board::numbers::{MsgNo, TaskNo};
use lent::bytes::Lent;
use paper::answer::Refusal;
use stores::Held;

// The running task and the message that w means, where it holds it: else 3, 4 or 5.
pub fn held(l: Lent<'_>, c: Option<TaskNo>, w: u16) -> Result<Held, Refusal>
    requires { Runner l.size l.bytes.now c }
    ensures { result ≡ held_of l.entry.size (board l.entry) (board l.entry).running w }
{
    let c = c.ok_or(Refusal::NobodyRuns)?;
    let m = MsgNo::meant(l.size, w).ok_or(Refusal::NoSuchMessage)?;
    if !l.place(m).is_held_by(c) {
        return Err(Refusal::NotHeld);
    }
    Ok(Held { c, m })
}

// The task that w means, where it is present.
pub fn present_task(l: Lent<'_>, w: u16) -> Option<TaskNo>
    ensures { result ≡ present_meant l.entry.size (board l.entry) w }
{
    let k = TaskNo::meant(l.size, w)?;
    if l.task(k).present() { Some(k) } else { None }
}
