//! Streams of std of which a read or a write that a signal interrupts is made again.

ghost use Rattle.std.specs.Prelude.{◌≡◌, ◌≢◌, IfErr};
ghost use Rattle.std.specs.Io.{ReadsAtMost, WritesAtMost};
ghost use Rattle.std.specs.Io.KnownBytes.{ReadConsumes, WriteAppends};
ghost use Rattle.std.specs.IoError.{error_kind};

use std::io::{Error, ErrorKind, Read, Result, Write};

/// A reader or a writer of which an interrupted call is made again, 2^64 - 2 times at most.
#[derive(Drop)]
pub struct Retried<T> {
    inner: T,
}

impl<T> Retried<T> {
    /// A reader or writer over another one.
    pub fn new(inner: T) -> Retried<T>
        ensures inner { result.inner ≡ inner }
    {
        Retried { inner }
    }
}

impl<R: Read> Read for Retried<R> {
    ghost remaining = { λ s. R.remaining s.inner };

    fn read(&mut self, buf: &mut [u8]) -> Result<usize>
        ensures bound { ReadsAtMost result buf.new }
        ensures bytes { ReadConsumes (R.remaining self.old.inner) (R.remaining self.new.inner) result buf.new }
        ensures retried { IfErr result (λ e. error_kind e ≢ ErrorKind.Interrupted) }
    {
        for _ in 0..u64::MAX {
            match self.inner.read(buf) {
                Err(e) if e.kind() == ErrorKind::Interrupted => {}
                read => return read,
            }
        }
        Err(Error::from(ErrorKind::TimedOut))
    }
}

impl<W: Write> Write for Retried<W> {
    ghost contents = { λ s. W.contents s.inner };

    fn write(&mut self, buf: &[u8]) -> Result<usize>
        ensures bound { WritesAtMost result buf.now }
        ensures bytes { WriteAppends (W.contents self.old.inner) (W.contents self.new.inner) result buf.now }
        ensures retried { IfErr result (λ e. error_kind e ≢ ErrorKind.Interrupted) }
    {
        for _ in 0..u64::MAX {
            match self.inner.write(buf) {
                Err(error) if error.kind() == ErrorKind::Interrupted => {}
                written => return written,
            }
        }
        Err(Error::from(ErrorKind::TimedOut))
    }

    fn flush(&mut self) -> Result<()> {
        self.inner.flush()
    }
}
