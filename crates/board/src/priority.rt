// PRIO of tasks and messages: bits 7 to 1 the priority number, 0 the highest, and bit 0 FIFO.
ghost use Rattle.std.specs.Prelude.{◌≡◌};
ghost use Rattle.board.specs.Status.{number, fifo, with_fifo};

pub fn number(p: u8) -> u8
    ensures { result ≡ number p }
{
    p / 2
}

pub fn fifo(p: u8) -> bool
    ensures { result ≡ fifo p }
{
    p % 2 == 1
}

pub fn with_fifo(p: u8) -> u8
    ensures { result ≡ with_fifo p }
{
    2 * (p / 2) + 1
}
