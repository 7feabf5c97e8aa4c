// Where a message is: the place byte, decoded. A byte that says nothing is kept as it is, so nothing is lost.
ghost use Rattle.std.specs.Prelude.{◌≡◌, ◌%◌};
ghost use Rattle.board.specs.Places.{place_of, place_byte, is_held_by, is_queued_at, is_on_timer};

use crate::numbers::{Number, Size, TaskNo};

#[derive(Clone, Copy, Debug, PartialEq, Eq)]
pub enum Place {
    Free,
    HeldBy(TaskNo),
    QueuedAt(TaskNo),
    OnTimer,
    Nowhere(u8),
}

impl Place {
    // What a place byte says on a board of this size.
    pub fn of(z: Size, p: u8) -> Place
        ensures { result ≡ place_of z p }
    {
        if p == 0 {
            return Place::Free;
        }
        if let Some(k) = TaskNo::meant(z, p as u16) {
            return Place::HeldBy(k);
        }
        if p < 64 {
            return Place::Nowhere(p);
        }
        if let Some(r) = TaskNo::meant(z, (p - 64) as u16) {
            return Place::QueuedAt(r);
        }
        if p == 128 {
            return Place::OnTimer;
        }
        Place::Nowhere(p)
    }

    // The byte that is stored for it.
    pub fn byte(self) -> u8
        ensures { result ≡ place_byte self % 256 }
    {
        match self {
            Place::Free => 0,
            Place::HeldBy(k) => (k.number() % 256) as u8,
            Place::QueuedAt(r) => ((64 + r.number() as u32) % 256) as u8,
            Place::OnTimer => 128,
            Place::Nowhere(p) => p,
        }
    }

    // In task c's hands.
    pub fn is_held_by(self, c: TaskNo) -> bool
        ensures { result ≡ is_held_by c.0 self }
    {
        self == Place::HeldBy(c)
    }

    pub fn is_on_timer(self) -> bool
        ensures { result ≡ is_on_timer self }
    {
        self == Place::OnTimer
    }

    // The place byte p says 'on the timer'. It is asked of every message, so the byte is compared and not decoded.
    pub fn says_on_timer(z: Size, p: u8) -> bool
        ensures { result ≡ is_on_timer (place_of z p) }
    {
        // among more than 63 tasks this byte would name a receiver or a holder
        p == 128 && z.tasks < 64
    }

    // The place byte p says 'queued at task k'. A walk asks it of every message, so the byte is compared and not decoded.
    pub fn says_queued(z: Size, k: TaskNo, p: u8) -> bool
        ensures { result ≡ is_queued_at k.0 (place_of z p) }
    {
        let n = k.number();
        // among more than 64 tasks this byte would name a holder
        p as u32 == 64 + n as u32 && z.tasks < p as u16 && n != 0 && n <= z.tasks
    }
}
