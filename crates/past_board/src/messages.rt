// The calls of a history on messages: each gets its fields in the hands of its claimer, and last they go into the queues.
use crate::history::History;
use crate::roles::Roles;
use board::numbers::Number;
use paper::call::Call;
use std::io;
use std::io::Write;
use telling::walks::queue;

// Message m is sent to r and taken back, by which RPTR names r.
fn address<W: Write>(h: &mut History<W>, m: u16, r: u16) -> io::Result<()> {
    if r == 0 {
        return Ok(());
    }
    h.make(Call::Send { m, r })?;
    h.make(Call::CancelMessage { m, r })
}

// Who claims message m, which is the lowest free one, gives it its fields. Those behind the last that is used are never claimed.
pub(crate) fn claim<W: Write>(h: &mut History<W>, roles: Roles, m: u16) -> io::Result<()> {
    let Some(k) = roles.claimer(m) else {
        return Ok(());
    };
    let u = roles.message(m);
    h.post(k)?;
    h.make(Call::Claim)?;
    address(h, m, u.rptr)?;
    h.make(Call::Prepare {
        m,
        stat: u.stat,
        prio: u.prio,
        sptr: u.sptr,
    })?;
    h.make(Call::WaitForInterrupt)
}

// Who claimed message m gives it back, if it is free.
pub(crate) fn release<W: Write>(h: &mut History<W>, roles: Roles, m: u16) -> io::Result<()> {
    let Some(k) = roles.claimer(m) else {
        return Ok(());
    };
    if roles.is_free(m) {
        h.post(k)?;
        h.make(Call::Release { m })?;
        h.make(Call::WaitForInterrupt)?;
    }
    Ok(())
}

// The queue of task k in its order.
pub(crate) fn fill_queue<W: Write>(h: &mut History<W>, roles: Roles, k: u16) -> io::Result<()> {
    let l = roles.board;
    for (m, _) in queue(l, roles.task(k).first(l.size)) {
        h.make(Call::Forward {
            m: m.number(),
            r: k,
        })?;
    }
    Ok(())
}
