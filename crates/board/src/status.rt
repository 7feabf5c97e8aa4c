// STAT of a task: the stored byte, its bits by name, and itself with one bit changed. DEBUG and MROB are kept and have no
// effect.
ghost use Rattle.std.specs.Prelude.{◌≡◌};
ghost use Rattle.board.specs.Status.{has, with_bit, without_bit, is_present, is_ready};

#[derive(Clone, Copy, Debug, Default, PartialEq, Eq)]
pub struct Status(u8);

impl Status {
    pub const WAIT: u8 = 128;

    pub const IWAT: u8 = 64;

    pub const BIT5: u8 = 32;

    pub const INTQ: u8 = 16;

    pub const DEBUG: u8 = 8;

    pub const MROB: u8 = 4;

    pub const MHBS: u8 = 2;

    pub const TCBB: u8 = 1;

    // Document 01 asks for a constructor from the stored byte: by this name a call says so, as `From` would not.
    pub fn stored(b: u8) -> Status
        ensures { result ≡ record { 0 = b } }
    {
        Status(b)
    }

    pub fn byte(self) -> u8
        ensures { result ≡ self.0 }
    {
        self.0
    }

    // Any bit of the mask is set.
    pub fn has(self, bit: u8) -> bool
        ensures { result ≡ has self bit }
    {
        self.0 & bit != 0
    }

    pub fn with(self, bit: u8) -> Status
        ensures { result ≡ with_bit self bit }
    {
        Status(self.0 | bit)
    }

    pub fn without(self, bit: u8) -> Status
        ensures { result ≡ without_bit self bit }
    {
        Status(self.0 & !bit)
    }

    pub fn present(self) -> bool
        ensures { result ≡ is_present self }
    {
        self.has(Status::TCBB)
    }

    // Present with WAIT and IWAT 0.
    pub fn ready(self) -> bool
        ensures { result ≡ is_ready self }
    {
        self.present() && !self.has(Status::WAIT) && !self.has(Status::IWAT)
    }
}
