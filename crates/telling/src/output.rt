// Standard output in pieces: what is written is gathered until it fills a piece and more comes, or until it is flushed. A write
// of the system costs more than the text of an argument, and a picture has some thousand of these.
ghost use Rattle.std.specs.Prelude.{◌≡◌, ◌≤◌, ◌++◌, [], None, cond, eqb, take, IfErr, IfOk, OnOk};
ghost use Rattle.std.specs.Io.{WritesAtMost};
ghost use Rattle.std.specs.Io.KnownBytes.{Appends, Keeps, WriteAppends};

use std::io;
use std::io::Write;

#[derive(Drop)]
pub struct Pieces<W: Write + Drop> {
    out: W,
    piece: [u8; 4096],
    used: usize,
    ghost within: { used ≤ 4096 },
}

impl<W: Write + Drop> Pieces<W> {
    ghost use Rattle.telling.specs.Output.{gathered};

    pub fn of(out: W) -> Pieces<W>
        ensures { (result.out ≡ out) × (result.used ≡ 0) }
    {
        Pieces {
            out,
            piece: [0; 4096],
            used: 0,
        }
    }

    // What is gathered goes on.
    fn hand_on(&mut self) -> io::Result<()>
        ensures empty { IfOk result (λ _. self.new.used ≡ 0) }
        ensures bytes { OnOk result (Appends (W.contents self.old.out) (W.contents self.new.out) (gathered self.old)) }
        ensures kept { IfErr result (λ _. gathered self.new ≡ gathered self.old) }
    {
        self.out.write_all(&self.piece[..self.used])?;
        self.used = 0;
        Ok(())
    }
}

// Where nothing fails no byte is lost, and all keep their order: each is put behind what is gathered. A full piece is handed on
// before the next begins, and the last by a flush. Where a write fails what is gathered stays.
impl<W: Write + Drop> Write for Pieces<W> {
    ghost use Rattle.telling.specs.Output.{gathered};

    fn write(&mut self, buf: &[u8]) -> io::Result<usize>
        ensures bound { WritesAtMost result buf.now }
        ensures bytes { WriteAppends None None result buf.now }
        ensures gathered { IfOk result (λ n. gathered self.new
            ≡ cond (eqb self.old.used 4096) [] (gathered self.old) ++ take n buf.now) }
        ensures handed { OnOk result (Appends (W.contents self.old.out) (W.contents self.new.out)
            (cond (eqb self.old.used 4096) (gathered self.old) [])) }
        ensures more { IfOk result (λ n. n ≡ 0 → buf.now ≡ []) }
        ensures kept { IfErr result (λ _. gathered self.new ≡ gathered self.old) }
    {
        if self.used == 4096 {
            self.hand_on()?;
        }
        let n = buf.len().min(4096 - self.used);
        self.piece[self.used..self.used + n].copy_from_slice(&buf[..n]);
        self.used += n;
        Ok(n)
    }

    fn flush(&mut self) -> io::Result<()>
        ensures bytes { Keeps None None }
        ensures empty { IfOk result (λ _. self.new.used ≡ 0) }
        ensures handed { OnOk result (Appends (W.contents self.old.out) (W.contents self.new.out) (gathered self.old)) }
    {
        self.hand_on()?;
        self.out.flush()
    }
}
