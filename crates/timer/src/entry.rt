// An entry of the timer buffer by value: a message number, 0 where the entry is free, and when it is due.
ghost use Rattle.std.specs.Prelude.{◌≡◌};
ghost use Rattle.timer.specs.Timer.{no_entry, is_used, is_due};

#[derive(Clone, Copy, Debug, Default, PartialEq, Eq)]
pub struct Entry {
    pub message: u8,
    pub due: u16,
}

impl Entry {
    // The free entry: three zero bytes.
    pub fn none() -> Entry
        ensures { result ≡ no_entry }
    {
        Entry::default()
    }

    pub fn used(self) -> bool
        ensures { result ≡ is_used self }
    {
        self.message != 0
    }

    // It is used, and its due word is this one: a free entry is never due, also at 0.
    pub fn is_due(self, at: u16) -> bool
        ensures { result ≡ is_due at self }
    {
        self.used() && self.due == at
    }
}
