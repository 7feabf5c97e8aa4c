// Records, places and bytes 0 and 1 on lent bytes that hold a whole board, each by its number. Who reads here has tested the
// length once, so nothing here tests it again: a loop over all records costs the loads alone. A number that the board does not
// have reads as zeros, and writing there changes nothing.
ghost use Rattle.std.specs.Prelude.{◌≡◌, ◌+◌, ◌<◌, ◌≤◌, ◌%◌, ◌/◌, eqb, get_or, set, length, MatchOption};
ghost use Rattle.board.specs.Numbers.{task_meant, message_meant, number_of_task};
ghost use Rattle.board.specs.Records.{word_at};
ghost use Rattle.board.specs.Places.{is_queued_at, is_on_timer};
ghost use Rattle.board.specs.Board.{total, task_area, message_area, place_area};
ghost use Rattle.board.specs.Writes.{put_first, put_running, put_task, put_message, put_place};
ghost use Rattle.lent.specs.Starts.{StartsAt};

use board::numbers::{MsgNo, Number, Size, TaskNo};
use board::places::Place;
use board::records::{Message, Task};
use board::status::Status;

// A link of a message. Three cases, which no Option has: the end of a queue is told apart from a link that leads beyond the
// board.
#[derive(Clone, Copy)]
pub enum MessageLink {
    On(MsgNo),
    End,
    Beyond,
}

// A whole board of a size on lent bytes, to read. Its length was tested once, by who made it.
#[derive(Clone, Copy)]
pub struct Lent<'a> {
    pub size: Size,
    pub bytes: &'a [u8],
    pub ghost whole: { total size ≤ length bytes.now },
}

// The same, to write. It keeps its size and its loan.
#[derive(Drop)]
pub struct LentMut<'a> {
    pub size: Size,
    pub bytes: &'a mut [u8],
    pub ghost whole: { total size ≤ length bytes.now },
}

// The byte at i, 0 past the end.
pub fn byte(l: &[u8], i: usize) -> u8
    ensures { result ≡ get_or l.now i 0 }
{
    l.get(i).copied().unwrap_or(0)
}

// The byte at i, where it is known to be there.
pub fn byte_in(l: &[u8], i: usize) -> u8
    requires { i < length l.now }
    ensures { result ≡ get_or l.now i 0 }
{
    l[i]
}

pub fn put_byte(l: &mut [u8], i: usize, v: u8)
    requires { i < length l.old }
    ensures { l.new ≡ set l.old i v }
{
    l[i] = v;
}

// The word at i, low byte first.
pub fn word(l: &[u8], i: usize) -> u16
    requires { i + 1 < length l.now }
    ensures { result ≡ word_at l.now i }
{
    u16::from_le_bytes([byte_in(l, i), byte_in(l, i + 1)])
}

pub fn put_word(l: &mut [u8], i: usize, w: u16)
    requires { i + 1 < length l.old }
    ensures { l.new ≡ set (set l.old i (w % 256)) (i + 1) (w / 256) }
{
    let [low, high] = w.to_le_bytes();
    put_byte(l, i, low);
    put_byte(l, i + 1, high);
}

// Byte 0 is 0: the task queue is empty.
pub fn no_tasks(l: &[u8]) -> bool
    ensures { result ≡ eqb (get_or l.now 0 0) 0 }
{
    byte(l, 0) == 0
}

pub fn put_first_task(l: &mut [u8], k: Option<TaskNo>)
    ensures { l.new ≡ put_first l.old (number_of_task k % 256) }
{
    if let [first, ..] = l {
        *first = (k.number() % 256) as u8;
    }
}

// Who runs is written into byte 1.
pub fn put_running(l: &mut [u8], c: Option<TaskNo>)
    ensures { l.new ≡ put_running l.old (number_of_task c % 256) }
{
    if let [_, running, ..] = l {
        *running = (c.number() % 256) as u8;
    }
}

// How many bytes a board of this size has.
fn bytes_of(z: Size) -> usize
    ensures { result ≡ total z }
{
    4 + 10 * (z.tasks as usize) + 9 * (z.messages as usize)
}

// Where the record of task k starts, if the board has it.
fn task_start(z: Size, k: TaskNo) -> Option<usize>
    ensures { StartsAt (task_area z) k.0 result }
{
    let k = TaskNo::meant(z, k.number())?;
    Some(10 * (k.number() as usize) - 6)
}

// Where the record of message m starts.
fn message_start(z: Size, m: MsgNo) -> Option<usize>
    ensures { StartsAt (message_area z) m.0 result }
{
    let m = MsgNo::meant(z, m.number())?;
    Some(10 * (z.tasks as usize) + 8 * (m.number() as usize) - 4)
}

// Where the place byte of message m lies.
fn place_start(z: Size, m: MsgNo) -> Option<usize>
    ensures { StartsAt (place_area z) m.0 result }
{
    let m = MsgNo::meant(z, m.number())?;
    Some(10 * (z.tasks as usize) + 8 * (z.messages as usize) + m.number() as usize + 3)
}

impl<'a> Lent<'a> {
    ghost use Rattle.board.specs.Board.{task, message, place};
    ghost use Rattle.lent.specs.Links.{message_link};
    ghost use Rattle.lent.specs.Lent.{board};

    // These bytes as a board of this size, if they hold a whole one.
    pub fn of(size: Size, bytes: &'a [u8]) -> Option<Lent<'a>>
        ensures { MatchOption result (length bytes.now < total size) (λ b. (b.size ≡ size) × (b.bytes.now ≡ bytes.now)) }
    {
        if bytes.len() < bytes_of(size) {
            return None;
        }
        Some(Lent { size, bytes })
    }

    // The first task of the task queue: byte 0.
    pub fn first_task(self) -> Option<TaskNo>
        ensures { result ≡ task_meant self.entry.size (board self.entry).first }
    {
        TaskNo::meant(self.size, byte_in(self.bytes, 0) as u16)
    }

    pub fn task(self, k: TaskNo) -> Task
        ensures { result ≡ task (board self.entry) k.0 }
    {
        let Some(o) = task_start(self.size, k) else {
            return Task::none();
        };
        Task {
            stat: Status::stored(byte_in(self.bytes, o)),
            prio: byte_in(self.bytes, o + 1),
            link: word(self.bytes, o + 2),
            mptr: word(self.bytes, o + 4),
            sptr: word(self.bytes, o + 6),
            name: word(self.bytes, o + 8),
        }
    }

    pub fn message(self, m: MsgNo) -> Message
        ensures { result ≡ message (board self.entry) m.0 }
    {
        let Some(o) = message_start(self.size, m) else {
            return Message::none();
        };
        Message {
            stat: byte_in(self.bytes, o),
            prio: byte_in(self.bytes, o + 1),
            link: word(self.bytes, o + 2),
            rptr: word(self.bytes, o + 4),
            sptr: word(self.bytes, o + 6),
        }
    }

    pub fn place(self, m: MsgNo) -> Place
        ensures { result ≡ place (board self.entry) m.0 }
    {
        let Some(o) = place_start(self.size, m) else {
            return Place::Free;
        };
        Place::of(self.size, byte_in(self.bytes, o))
    }

    // LINK of message m.
    fn link_of(self, m: MsgNo) -> u16
        ensures { result ≡ (message (board self.entry) m.0).link }
    {
        let Some(o) = message_start(self.size, m) else {
            return 0;
        };
        word(self.bytes, o + 2)
    }

    // The next message of the queue: LINK. A walk reads one field at a time: a whole record is a load that the next link has to
    // wait for.
    pub fn next_message(self, m: MsgNo) -> Option<MsgNo>
        ensures { result ≡ message_meant self.entry.size (message (board self.entry) m.0).link }
    {
        MsgNo::meant(self.size, self.link_of(m))
    }

    // Where LINK leads: on to a message, to the end where it is 0, or beyond the board. A walk goes on by one test of the link.
    pub fn link_from(self, m: MsgNo) -> MessageLink
        ensures { result ≡ message_link self.entry.size (message (board self.entry) m.0).link }
    {
        let w = self.link_of(m);
        match MsgNo::meant(self.size, w) {
            Some(j) => MessageLink::On(j),
            None if w == 0 => MessageLink::End,
            None => MessageLink::Beyond,
        }
    }

    // PRIO of message m.
    pub fn prio(self, m: MsgNo) -> u8
        ensures { result ≡ (message (board self.entry) m.0).prio }
    {
        let Some(o) = message_start(self.size, m) else {
            return 0;
        };
        byte_in(self.bytes, o + 1)
    }

    // Message m is queued at task k.
    pub fn queued_at(self, k: TaskNo, m: MsgNo) -> bool
        ensures { result ≡ is_queued_at k.0 (place (board self.entry) m.0) }
    {
        let Some(o) = place_start(self.size, m) else {
            return false;
        };
        Place::says_queued(self.size, k, byte_in(self.bytes, o))
    }

    // Message m is on the timer.
    pub fn on_timer(self, m: MsgNo) -> bool
        ensures { result ≡ is_on_timer (place (board self.entry) m.0) }
    {
        let Some(o) = place_start(self.size, m) else {
            return false;
        };
        Place::says_on_timer(self.size, byte_in(self.bytes, o))
    }
}

impl<'a> LentMut<'a> {
    ghost use Rattle.lent.specs.Lent.{Becomes};

    // These bytes as a board of this size to write, if they hold a whole one.
    pub fn of(size: Size, bytes: &'a mut [u8]) -> Option<LentMut<'a>>
        ensures { MatchOption result (length bytes.old < total size) (λ b. (b.size ≡ size) × (b.bytes ≡ bytes.entry)) }
    {
        if bytes.len() < bytes_of(size) {
            return None;
        }
        Some(LentMut { size, bytes })
    }

    pub fn read(&self) -> Lent<'_>
        ensures { (result.size ≡ self.now.size) × (result.bytes.now ≡ self.now.bytes.now) }
    {
        Lent {
            size: self.size,
            bytes: self.bytes,
        }
    }

    pub fn put_task(&mut self, k: TaskNo, t: Task)
        ensures { Becomes self.old self.new (put_task self.old.size self.old.bytes.now k.0 t) }
    {
        let Some(o) = task_start(self.size, k) else {
            return;
        };
        put_byte(self.bytes, o, t.stat.byte());
        put_byte(self.bytes, o + 1, t.prio);
        put_word(self.bytes, o + 2, t.link);
        put_word(self.bytes, o + 4, t.mptr);
        put_word(self.bytes, o + 6, t.sptr);
        put_word(self.bytes, o + 8, t.name);
    }

    pub fn put_message(&mut self, m: MsgNo, u: Message)
        ensures { Becomes self.old self.new (put_message self.old.size self.old.bytes.now m.0 u) }
    {
        let Some(o) = message_start(self.size, m) else {
            return;
        };
        put_byte(self.bytes, o, u.stat);
        put_byte(self.bytes, o + 1, u.prio);
        put_word(self.bytes, o + 2, u.link);
        put_word(self.bytes, o + 4, u.rptr);
        put_word(self.bytes, o + 6, u.sptr);
    }

    pub fn put_place(&mut self, m: MsgNo, p: Place)
        ensures { Becomes self.old self.new (put_place self.old.size self.old.bytes.now m.0 p) }
    {
        let Some(o) = place_start(self.size, m) else {
            return;
        };
        put_byte(self.bytes, o, p.byte());
    }
}
