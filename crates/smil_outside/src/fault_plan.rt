//! Which calls of a source or a sink in memory fail.

ghost use Rattle.std.specs.Prelude.{◌≡◌, ◌↔◌, ◌+◌, IfOk, IsTrue, Contains};
ghost use Rattle.smil_outside.specs.Faults.{HasRisen};

use std::alloc::{AllocError, Global};
use std::marker::Model;

/// The numbers of the calls that fail, from 1, and how many calls and faults there were.
#[derive(Drop)]
pub(crate) struct FaultPlan {
    fail_at: Vec<u32>,
    calls: u64,
    faults: u64,
}

impl Model for FaultPlan {
    ghost use Rattle.smil_outside.specs.Memory.{Plan};

    ghost Value = { Plan };

    ghost view = { λ p. record { fail_at = p.fail_at.items; calls = p.calls; faults = p.faults } };
}

impl FaultPlan {
    ghost use Rattle.smil_outside.specs.Memory.{called, faulted};

    /// Before the first call.
    pub(crate) fn new(alloc: Global, fail_at: &[u32]) -> Result<FaultPlan, AllocError>
        ensures { IfOk result (λ plan. plan
            ≡ record { fail_at = fail_at.now; calls = 0; faults = 0 }) }
    {
        Ok(FaultPlan {
            fail_at: Vec::from_slice(alloc, fail_at)?,
            calls: 0,
            faults: 0,
        })
    }

    /// Counts a call, and says whether it is one of those that fail.
    pub(crate) fn next_fails(&mut self) -> bool
        ensures fails { IsTrue result ↔ Contains self.old.fail_at (self.old.calls + 1) }
        ensures called { self.new ≡ called self.old }
    {
        let number = u128::from(self.calls) + 1;
        self.calls = self.calls.saturating_add(1);
        self.fail_at
            .iter()
            .any(|fails| u128::from(*fails) == number)
    }

    /// Counts a fault.
    pub(crate) fn count_fault(&mut self)
        ensures value { self.new ≡ faulted self.old }
        ensures risen { HasRisen self.old.faults self.new.faults }
    {
        self.faults = self.faults.saturating_add(1);
    }
}
