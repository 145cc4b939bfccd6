ghost use Rattle.std.specs.Prelude.{◌≡◌, ◌≤◌, ◌↔◌, IsErr, OnOk, OnErr, Contains};
ghost use Rattle.wh_io.specs.Causes.{next_count};
ghost use Rattle.wh_io.specs.Plan.{passed, failed};

use crate::count::Count;
use crate::outside::Failed;
use std::marker::Model;

/// Which calls of an object in memory fail.
#[derive(Drop)]
pub(crate) struct FaultPlan {
    failing: Vec<u64>,
    calls: Count,
    faults: Count,
}

impl Model for FaultPlan {
    ghost use Rattle.wh_io.specs.Plan.{Plan};

    ghost Value = { Plan };

    ghost view = { λ p. record { failing = p.failing.items; calls = p.calls; faults = p.faults } };
}

impl FaultPlan {
    pub(crate) fn new(failing: Vec<u64>) -> FaultPlan
        ensures { result ≡ record { failing = failing.items; calls = 0; faults = 0 } }
    {
        FaultPlan {
            failing,
            calls: Count::new(),
            faults: Count::new(),
        }
    }

    /// Counts a call, and a fault where the call's number is among those that fail.
    pub(crate) fn next_call(&mut self) -> Result<(), Failed>
        ensures chosen { IsErr result ↔ Contains self.old.failing (next_count self.old.calls) }
        ensures ok { OnOk result (self.new ≡ passed self.old) }
        ensures err { OnErr result (self.new ≡ failed self.old) }
        ensures later { self.old.faults ≤ self.new.faults }
    {
        self.calls.raise();
        if self.failing.contains(&self.calls.number()) {
            return Err(self.fault());
        }
        Ok(())
    }

    /// Counts a fault of the call that is counted already.
    pub(crate) fn fault(&mut self) -> Failed
        ensures next { self.new ≡ record self.old { faults = next_count self.old.faults } }
        ensures later { self.old.faults ≤ self.new.faults }
    {
        self.faults.fault()
    }
}
