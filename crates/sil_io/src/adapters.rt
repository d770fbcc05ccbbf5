//! The readers and writers of the standard library. Its contracts don't tell one call from another, so that each method here
//! makes just one call isn't proved: it is to be read.

ghost use Rattle.std.specs.Prelude.{⊤};

use crate::reader::Reader;
use crate::writer::Writer;
use std::io;
use std::io::{Read, Write};

impl<R: Read> Reader for R {
    ghost left = { R.remaining };

    ghost reads = { λ _ _ _ _ _. ⊤ };

    ghost failed = { λ _ _ _ _. ⊤ };

    fn read_once(&mut self, buf: &mut [u8]) -> io::Result<usize> {
        self.read(buf)
    }
}

impl<W: Write> Writer for W {
    ghost contents = { W.contents };

    ghost writes = { λ _ _ _ _. ⊤ };

    ghost failed = { λ _ _ _. ⊤ };

    ghost flushed = { λ _ _. ⊤ };

    ghost flush_failed = { λ _ _. ⊤ };

    fn write_once(&mut self, bytes: &[u8]) -> io::Result<usize> {
        self.write(bytes)
    }

    fn flush_once(&mut self) -> io::Result<()> {
        self.flush()
    }
}
