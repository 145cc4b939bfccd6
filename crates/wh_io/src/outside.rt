ghost use Rattle.std.specs.Prelude.{ℕ, ◌<◌, List, Option, length, IfOk};
ghost use Rattle.std.specs.Io.{ReadsAtMost, WritesAtMost};
ghost use Rattle.std.specs.Io.KnownBytes.{ReadConsumes, WriteAppends};
ghost use Rattle.wh_io.specs.Causes.{HasCause};

/// A read or a write of the outside failed.
#[derive(Clone, Copy, Debug, PartialEq, Eq)]
pub struct Failed;

/// Where bytes come from.
pub trait Source {
    /// The bytes that are left to read, where the source tells them.
    ghost left: { Self → Option (List ℕ) };

    /// How often the source has failed. The count never falls.
    ghost faults: { Self → ℕ };

    /// Moves the next bytes to the front of `buf` and answers how many. It answers 0 only at the end of the input or
    /// for an empty buffer.
    ///
    /// `Failed` comes only where the count of faults rose in this call, or stands at the greatest u64 after it. The
    /// bytes that are left stay as they were then.
    fn read(&mut self, buf: &mut [u8]) -> Result<usize, Failed>
        ensures bound { ReadsAtMost result buf.new }
        ensures bytes { ReadConsumes (left self.old) (left self.new) result buf.new }
        ensures cause { HasCause (faults self.old) (faults self.new) result };
}

/// Where bytes go.
pub trait Sink {
    /// The bytes that were written so far, where the sink tells them.
    ghost holds: { Self → Option (List ℕ) };

    /// How often the sink has failed. The count never falls.
    ghost faults: { Self → ℕ };

    /// Appends the front of `bytes` and answers how many bytes it took: at least one where there is one.
    ///
    /// `Failed` comes only where the count of faults rose in this call, or stands at the greatest u64 after it. The
    /// sink holds what it held then.
    fn write(&mut self, bytes: &[u8]) -> Result<usize, Failed>
        ensures bound { WritesAtMost result bytes.now }
        ensures some { IfOk result (λ n. 0 < length bytes.now → 0 < n) }
        ensures bytes { WriteAppends (holds self.old) (holds self.new) result bytes.now }
        ensures cause { HasCause (faults self.old) (faults self.new) result };
}
