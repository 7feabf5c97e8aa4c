// The order of the calls of a history: first all records, then who waits, runs and is ready, and the queues.
ghost use Rattle.std.specs.Iterator.{IsFinite};

use crate::history::{Group, History};
use crate::messages::{claim, fill_queue, release};
use crate::roles::Roles;
use crate::tasks::{
    dismiss, install_guest, install_tasks, post_filler, queue_interrupt, rest_filler, wait, wake,
};
use std::io;
use std::io::Write;

// A group that goes by numbers of tasks or of messages: its calls for each.
fn each<W: Write, N: Iterator<Item = u16> + Drop, F: Fn(&mut History<W>, u16) -> io::Result<()>>(
    h: &mut History<W>,
    group: Group,
    numbers: N,
    calls: F,
) -> io::Result<()>
    requires callable { F.IsAlwaysCallable calls }
    requires can { N.can_next numbers }
    requires ends { IsFinite (N.remaining numbers) }
{
    h.begin(group);
    for n in numbers {
        calls(h, n)?;
    }
    Ok(())
}

// Every task waits for an interrupt, and every message that is used is held and has its fields. The last guest is the first that
// is installed.
fn make_records<W: Write>(h: &mut History<W>, roles: Roles) -> io::Result<()> {
    install_tasks(h, roles)?;
    each(
        h,
        Group::Guests,
        (1..=32).rev(),
        |h, k| install_guest(h, roles, k),
    )?;
    each(h, Group::Messages, 1..=128, |h, m| claim(h, roles, m))?;
    each(h, Group::Free, 1..=128, |h, m| release(h, roles, m))?;
    each(h, Group::Gone, 1..=32, |h, k| dismiss(h, roles, k))
}

// Who waits for a message, who runs and who is ready, and the queues.
fn make_queues<W: Write>(h: &mut History<W>, roles: Roles) -> io::Result<()> {
    each(h, Group::Waiting, 1..=32, |h, k| wait(h, roles, k))?;
    post_filler(h, roles)?;
    each(h, Group::Ready, 1..=32, |h, k| wake(h, roles, k))?;
    each(h, Group::Queues, 1..=32, |h, k| fill_queue(h, roles, k))
}

// All calls of a history that ends in the board with these roles.
pub(crate) fn make_past<W: Write>(h: &mut History<W>, roles: Roles) -> io::Result<()> {
    make_records(h, roles)?;
    make_queues(h, roles)?;
    rest_filler(h, roles)?;
    each(
        h,
        Group::Posted,
        1..=32,
        |h, k| queue_interrupt(h, roles, k),
    )
}
