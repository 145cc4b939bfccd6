ghost use Rattle.std.specs.Prelude.{◌≡◌, ◌≤◌, ◌<◌, None, IfOk, IfSome, length, take};
ghost use Rattle.std.specs.Io.{WritesAtMost};
ghost use Rattle.std.specs.Io.KnownBytes.{Appends};
ghost use Rattle.wh_io.specs.Causes.{HasCause};

use crate::count::Count;
use crate::outside::{Failed, Sink, Source};
use std::io::{Read, Write};
use std::marker::Model;

/// A reader of std as a source, as standard input: as a value, the reader and its count of faults. It tells the bytes
/// that are left where the reader does, which standard input doesn't. Each error of the reader is a fault.
#[derive(Drop)]
pub struct StdSource<R> {
    inner: R,
    faults: Count,
}

impl<R> Model for StdSource<R> {
    ghost use Rattle.std.specs.Prelude.{ℕ};
    ghost use Rattle.std.specs.Coded.{coded×, coded_ℕ};

    ghost Value = { R × ℕ };

    ghost coded = { coded× R.code coded_ℕ };

    ghost view = { λ s. (s.inner, s.faults) };
}

impl<R: Read> StdSource<R> {
    /// The reader as a source with no fault so far.
    pub fn new(inner: R) -> StdSource<R>
        ensures { result ≡ (inner, 0) }
    {
        StdSource {
            inner,
            faults: Count::new(),
        }
    }
}

impl<R: Read> Source for StdSource<R> {
    ghost left = { λ s. R.remaining s.0 };

    ghost faults = { λ s. s.1 };

    fn read(&mut self, buf: &mut [u8]) -> Result<usize, Failed> {
        match self.inner.read(buf) {
            Ok(count) => Ok(count),
            Err(_) => Err(self.faults.fault()),
        }
    }
}

/// A writer of std as a sink, as standard output: as a value, the writer and its count of faults. It is flushed after
/// each write. An error, a write that takes no byte of a piece, and a failed flush are faults. It tells no bytes: after
/// a failed flush nobody knows how far they went.
#[derive(Drop)]
pub struct StdSink<W> {
    inner: W,
    faults: Count,
}

impl<W> Model for StdSink<W> {
    ghost use Rattle.std.specs.Prelude.{ℕ};
    ghost use Rattle.std.specs.Coded.{coded×, coded_ℕ};

    ghost Value = { W × ℕ };

    ghost coded = { coded× W.code coded_ℕ };

    ghost view = { λ s. (s.inner, s.faults) };
}

impl<W: Write> StdSink<W> {
    /// The writer as a sink with no fault so far.
    pub fn new(inner: W) -> StdSink<W>
        ensures { result ≡ (inner, 0) }
    {
        StdSink {
            inner,
            faults: Count::new(),
        }
    }

    /// Writes and flushes, and answers how many bytes the writer took: `None` where either failed.
    fn write_through(&mut self, bytes: &[u8]) -> Option<usize>
        ensures bound { IfSome result (λ n. n ≤ length bytes.now) }
        ensures passed { IfSome result (λ n. Appends (W.contents self.old.0) (W.contents self.new.0) (take n bytes.now)) }
        ensures faults { self.new.1 ≡ self.old.1 }
    {
        let count = self.inner.write(bytes).ok()?;
        self.inner.flush().ok()?;
        Some(count)
    }
}

impl<W: Write> Sink for StdSink<W> {
    ghost holds = { λ _. None };

    ghost faults = { λ s. s.1 };

    fn write(&mut self, bytes: &[u8]) -> Result<usize, Failed>
        ensures bound { WritesAtMost result bytes.now }
        ensures some { IfOk result (λ n. 0 < length bytes.now → 0 < n) }
        ensures cause { HasCause self.old.1 self.new.1 result }
        ensures passed { IfOk result (λ n. Appends (W.contents self.old.0) (W.contents self.new.0) (take n bytes.now)) }
    {
        match self.write_through(bytes) {
            Some(count) if count > 0 || bytes.is_empty() => Ok(count),
            _ => Err(self.faults.fault()),
        }
    }
}
