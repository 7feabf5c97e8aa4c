// The calls of a history on tasks: who is there, who waits and for what, and who runs.
use crate::history::{Group, History};
use crate::roles::Roles;
use board::numbers::Number;
use board::records::Task;
use board::status::Status;
use paper::call::Call;
use std::io;
use std::io::Write;
use telling::walks::tasks;

// What a task is not installed with, and gets later.
const LATER: u8 = Status::WAIT + Status::IWAT + Status::INTQ + Status::MHBS;

// Task k is installed with the fields of t, and waits for an interrupt.
fn install<W: Write>(h: &mut History<W>, k: u16, t: Task) -> io::Result<()> {
    let s = t.stat;
    h.make(Call::Install {
        k,
        stat: s.without(LATER).byte(),
        prio: t.prio,
        sptr: t.sptr,
        name: t.name,
    })?;
    h.make(Call::WaitForInterrupt)
}

// The tasks in queue order.
pub(crate) fn install_tasks<W: Write>(h: &mut History<W>, roles: Roles) -> io::Result<()> {
    h.begin(Group::Tasks);
    let l = roles.board;
    for (k, t) in tasks(l) {
        install(h, k.number(), t)?;
    }
    Ok(())
}

// A guest stands behind all other tasks: its priority number is the largest.
fn guest() -> Task {
    Task {
        stat: Status::stored(Status::TCBB),
        prio: 0xFD,
        link: 0,
        mptr: 0,
        sptr: 0,
        name: 0,
    }
}

pub(crate) fn install_guest<W: Write>(h: &mut History<W>, roles: Roles, k: u16) -> io::Result<()> {
    if roles.is_guest(k) {
        install(h, k, guest())?;
    }
    Ok(())
}

// A guest is posted and cancelled.
pub(crate) fn dismiss<W: Write>(h: &mut History<W>, roles: Roles, k: u16) -> io::Result<()> {
    if roles.is_guest(k) {
        h.post(k)?;
        h.make(Call::CancelTask { k })?;
    }
    Ok(())
}

// Task k waits for a message. Where it is due one (MHBS), that is queued at it later.
pub(crate) fn wait<W: Write>(h: &mut History<W>, roles: Roles, k: u16) -> io::Result<()> {
    let s = roles.task(k).stat;
    if s.has(Status::WAIT + Status::MHBS) {
        h.post(k)?;
        h.make(Call::ReceiveAndWait)?;
    }
    Ok(())
}

// Task k is ready and due no message. Who fills the queues is posted already.
pub(crate) fn wake<W: Write>(h: &mut History<W>, roles: Roles, k: u16) -> io::Result<()> {
    let s = roles.task(k).stat;
    if roles.filler != Some(k) && !s.has(Status::MHBS) && s.ready() {
        h.post(k)?;
    }
    Ok(())
}

pub(crate) fn queue_interrupt<W: Write>(
    h: &mut History<W>,
    roles: Roles,
    k: u16,
) -> io::Result<()> {
    let s = roles.task(k).stat;
    if s.has(Status::INTQ) {
        h.post(k)?;
    }
    Ok(())
}

// Who fills the queues runs.
pub(crate) fn post_filler<W: Write>(h: &mut History<W>, roles: Roles) -> io::Result<()> {
    let Some(k) = roles.filler else {
        return Ok(());
    };
    h.begin(Group::Runs);
    h.post(k)
}

// Where no task runs on the board, who fills the queues waits for an interrupt again.
pub(crate) fn rest_filler<W: Write>(h: &mut History<W>, roles: Roles) -> io::Result<()> {
    if roles.filler == roles.runs {
        return Ok(());
    }
    h.begin(Group::Rests);
    h.make(Call::WaitForInterrupt)
}
