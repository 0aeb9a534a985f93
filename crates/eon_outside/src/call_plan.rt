//! Which calls of an object held in memory fail.
ghost use Rattle.std.specs.Prelude.{◌≡◌, ◌≤◌, ℕ};
ghost use Rattle.eon_outside.specs.Faults.{counted};
ghost use Rattle.eon_outside.specs.Memory.{is_due, plan_of};

use std::marker::Model;

/// The numbers of the calls that are to fail, counted from 1, and counts of calls and of faults, which stay at
/// 2^64 - 1.
#[derive(Drop)]
pub struct CallPlan {
    fails: Vec<u64>,
    calls: u64,
    faults: u64,
}

impl Model for CallPlan {
    ghost use Rattle.eon_outside.specs.Memory as memory;

    ghost Value = { memory.CallPlan };

    ghost view = { λ plan. record { fails = plan.fails.items; calls = plan.calls; faults = plan.faults } };
}

impl CallPlan {
    /// A plan of which no call was made.
    pub fn new(fails: Vec<u64>) -> CallPlan
        ensures { result ≡ plan_of fails.items }
    {
        CallPlan {
            fails,
            calls: 0,
            faults: 0,
        }
    }

    /// Counts a call, and says whether it is to fail.
    pub fn next_fails(&mut self) -> bool
        ensures due { result ≡ is_due self.old }
        ensures counts { self.new ≡ record self.old { calls = counted self.old.calls } }
    {
        self.calls = self.calls.saturating_add(1);
        self.fails.contains(&self.calls)
    }

    /// Counts a fault.
    pub fn count_fault(&mut self)
        ensures counts { self.new ≡ record self.old { faults = counted self.old.faults } }
        ensures later { self.old.faults ≤ self.new.faults }
    {
        self.faults = self.faults.saturating_add(1);
    }

    /// How many calls were made.
    pub fn calls(&self) -> u64
        ensures { result ≡ self.now.calls }
    {
        self.calls
    }

    /// How many calls failed.
    pub fn faults(&self) -> u64
        ensures { result ≡ self.now.faults }
    {
        self.faults
    }
}
