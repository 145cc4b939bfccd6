ghost use Rattle.std.specs.Prelude.{◌≡◌, ◌≤◌, ◌<◌, ◌↔◌, ◌++◌, Some, [], length, min, take, drop, Contains, IsErr, IfOk, OnErr};
ghost use Rattle.std.specs.Io.{ReadsAtMost, WritesAtMost};
ghost use Rattle.std.specs.Io.KnownBytes.{ReadConsumes, WriteAppends};
ghost use Rattle.wh_io.specs.Causes.{HasCause, next_count};
ghost use Rattle.wh_io.specs.Plan.{passed, failed};

use crate::outside::{Failed, Sink, Source};
use crate::plan::FaultPlan;
use crate::rest::Rest;
use std::alloc::{AllocError, Global};
use std::marker::Model;

/// Bytes in memory, given in pieces of a greatest length. Chosen calls fail.
#[derive(Drop)]
pub struct MemorySource {
    rest: Rest,
    piece: usize,
    plan: FaultPlan,
}

impl Model for MemorySource {
    ghost use Rattle.std.specs.Prelude.{◌≤◌};
    ghost use Rattle.wh_io.specs.Plan.{Supply};

    ghost Value = { Supply };

    ghost view = { λ s. record { left = s.rest; piece = s.piece; plan = s.plan } };

    ghost invariant = { λ s. 1 ≤ s.piece };
}

impl MemorySource {
    /// A source that gives `bytes`, at most `piece` of them in a call. `failing` has the numbers of the calls that
    /// fail, from 1.
    pub fn new(bytes: Vec<u8>, piece: usize, failing: Vec<u64>) -> MemorySource
        requires { 1 ≤ piece }
        ensures { result ≡ record { left = bytes.items; piece = piece; plan = record { failing = failing.items; calls = 0; faults = 0 } } }
    {
        MemorySource {
            rest: Rest::new(bytes),
            piece,
            plan: FaultPlan::new(failing),
        }
    }
}

impl Source for MemorySource {
    ghost left = { λ s. Some s.left };

    ghost faults = { λ s. s.plan.faults };

    fn read(&mut self, buf: &mut [u8]) -> Result<usize, Failed>
        ensures bound { ReadsAtMost result buf.new }
        ensures bytes { ReadConsumes (Some self.old.left) (Some self.new.left) result buf.new }
        ensures cause { HasCause self.old.plan.faults self.new.plan.faults result }
        ensures chosen { IsErr result ↔ Contains self.old.plan.failing (next_count self.old.plan.calls) }
        ensures count { IfOk result (λ n. n ≡ min (min (length buf.old) self.old.piece) (length self.old.left)) }
        ensures ok { IfOk result (λ n. self.new ≡ record self.old { left = drop n self.old.left; plan = passed self.old.plan }) }
        ensures err { OnErr result (self.new ≡ record self.old { plan = failed self.old.plan }) }
    {
        self.plan.next_call()?;
        Ok(self.rest.give(buf, self.piece))
    }
}

/// Bytes in memory, taken in pieces of a greatest length. Chosen calls fail, and so does one that finds no memory.
#[derive(Drop)]
pub struct MemorySink {
    bytes: Vec<u8>,
    piece: usize,
    plan: FaultPlan,
}

impl Model for MemorySink {
    ghost use Rattle.std.specs.Prelude.{◌≤◌};
    ghost use Rattle.wh_io.specs.Plan.{Store};

    ghost Value = { Store };

    ghost view = { λ s. record { bytes = s.bytes.items; piece = s.piece; plan = s.plan } };

    ghost invariant = { λ s. 1 ≤ s.piece };
}

impl MemorySink {
    /// An empty sink that takes at most `piece` bytes in a call. `failing` has the numbers of the calls that fail,
    /// from 1.
    pub fn new(alloc: Global, piece: usize, failing: Vec<u64>) -> MemorySink
        requires { 1 ≤ piece }
        ensures { result ≡ record { bytes = []; piece = piece; plan = record { failing = failing.items; calls = 0; faults = 0 } } }
    {
        MemorySink {
            bytes: Vec::new(alloc),
            piece,
            plan: FaultPlan::new(failing),
        }
    }

    /// The bytes that were written so far.
    pub fn bytes(&self) -> &[u8]
        ensures { result.now ≡ self.now.bytes }
    {
        self.bytes.as_slice()
    }
}

impl Sink for MemorySink {
    ghost holds = { λ s. Some s.bytes };

    ghost faults = { λ s. s.plan.faults };

    fn write(&mut self, bytes: &[u8]) -> Result<usize, Failed>
        ensures bound { WritesAtMost result bytes.now }
        ensures some { IfOk result (λ n. 0 < length bytes.now → 0 < n) }
        ensures bytes { WriteAppends (Some self.old.bytes) (Some self.new.bytes) result bytes.now }
        ensures cause { HasCause self.old.plan.faults self.new.plan.faults result }
        ensures chosen { Contains self.old.plan.failing (next_count self.old.plan.calls) → IsErr result }
        ensures count { IfOk result (λ n. n ≡ min (length bytes.now) self.old.piece) }
        ensures ok { IfOk result (λ n. self.new ≡ record self.old { bytes = self.old.bytes ++ take n bytes.now; plan = passed self.old.plan }) }
        ensures err { OnErr result (self.new ≡ record self.old { plan = failed self.old.plan }) }
    {
        self.plan.next_call()?;
        let count = bytes.len().min(self.piece);
        match self.bytes.extend_from_slice(&bytes[..count]) {
            Ok(()) => Ok(count),
            Err(AllocError) => Err(self.plan.fault()),
        }
    }
}
