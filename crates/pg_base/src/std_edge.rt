//! Standard input and output as a source and sinks: the trusted edge. What the system does is std's word.

ghost use Rattle.std.specs.Prelude.{◌≡◌};
ghost use Rattle.pg_base.specs.work.StdEdge.{reader_of, read_faults, writer_of, write_faults};

use crate::outside::{Failed, Sink, Source};
use std::io::{Read, Write};

/// A reader of std as a source. It tells its bytes where the reader does, which standard input does not.
#[derive(Drop)]
pub struct StdSource<R> {
    inner: R,
    faults: u64,
}

impl<R: Read> StdSource<R> {
    /// A source over this reader, without a fault so far.
    pub fn new(r: R) -> StdSource<R>
        ensures reader { reader_of result ≡ r }
        ensures faults { read_faults result ≡ 0 }
    {
        StdSource {
            inner: r,
            faults: 0,
        }
    }
}

impl<R: Read> Source for StdSource<R> {
    ghost left = { λ s. R.remaining s.inner };

    ghost faults = { λ s. s.faults };

    fn read(&mut self, buf: &mut [u8]) -> Result<usize, Failed> {
        match self.inner.read(buf) {
            Ok(count) => Ok(count),
            Err(_) => {
                self.faults = self.faults.saturating_add(1);
                Err(Failed)
            }
        }
    }
}

/// A writer of std as a sink. It tells its bytes where the writer does. A write of no byte is a fault.
#[derive(Drop)]
pub struct StdSink<W> {
    inner: W,
    faults: u64,
}

impl<W: Write> StdSink<W> {
    /// A sink over this writer, without a fault so far.
    pub fn new(w: W) -> StdSink<W>
        ensures writer { writer_of result ≡ w }
        ensures faults { write_faults result ≡ 0 }
    {
        StdSink {
            inner: w,
            faults: 0,
        }
    }
}

impl<W: Write> Sink for StdSink<W> {
    ghost held = { λ s. W.contents s.inner };

    ghost faults = { λ s. s.faults };

    fn write(&mut self, b: &[u8]) -> Result<usize, Failed> {
        match self.inner.write(b) {
            Ok(count) if count > 0 => Ok(count),
            _ => {
                self.faults = self.faults.saturating_add(1);
                Err(Failed)
            }
        }
    }
}
