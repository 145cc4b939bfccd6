ghost use Rattle.std.specs.Prelude.{◌≡◌, ◌<◌, Some, None, length, min, drop, Ok};
ghost use Rattle.std.specs.Io.{ReadsAtMost, WritesAtMost};
ghost use Rattle.std.specs.Io.KnownBytes.{ReadConsumes};
ghost use Rattle.wh_io.specs.Causes.{HasCause};

use crate::outside::{Failed, Sink, Source};
use crate::rest::Rest;
use std::marker::Model;

/// Bytes in memory, given in pieces as large as the buffer. It never fails: its count of faults is always 0.
#[derive(Drop)]
pub struct SteadySource {
    rest: Rest,
}

impl Model for SteadySource {
    ghost use Rattle.std.specs.Prelude.{List, ℕ};

    ghost Value = { List ℕ };

    ghost view = { λ s. s.rest };
}

impl SteadySource {
    /// A source that gives `bytes`.
    pub fn new(bytes: Vec<u8>) -> SteadySource
        ensures { result ≡ bytes.items }
    {
        SteadySource {
            rest: Rest::new(bytes),
        }
    }
}

impl Source for SteadySource {
    ghost left = { λ s. Some s };

    ghost faults = { λ _. 0 };

    fn read(&mut self, buf: &mut [u8]) -> Result<usize, Failed>
        ensures bound { ReadsAtMost result buf.new }
        ensures bytes { ReadConsumes (Some self.old) (Some self.new) result buf.new }
        ensures cause { HasCause 0 0 result }
        ensures count { result ≡ Ok (min (length buf.old) (length self.old)) }
    {
        let room = buf.len();
        Ok(self.rest.give(buf, room))
    }
}

/// Takes every byte and keeps none, so that it never needs memory and never fails: its count of faults is always 0.
/// It tells no bytes.
#[derive(Clone, Copy, Debug)]
pub struct SteadySink;

impl Sink for SteadySink {
    ghost holds = { λ _. None };

    ghost faults = { λ _. 0 };

    fn write(&mut self, bytes: &[u8]) -> Result<usize, Failed>
        ensures bound { WritesAtMost result bytes.now }
        ensures cause { HasCause 0 0 result }
        ensures all { result ≡ Ok (length bytes.now) }
    {
        Ok(bytes.len())
    }
}
