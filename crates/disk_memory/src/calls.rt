// The counts that the disk and the output in memory keep.
ghost use Rattle.std.specs.Prelude.{◌≡◌, ◌≤◌};
ghost use Rattle.common_spec.specs.Counts.{one_more};
ghost use Rattle.disk_memory.specs.Calls.{after_call, is_listed};

use std::marker::Model;

/// The numbers of the calls that are to fail, and the counts of calls, faults and calls that found no memory.
#[derive(Drop)]
pub struct Calls {
    fail_list: Vec<u64>,
    calls: u64,
    faults: u64,
    refused: u64,
}

impl Model for Calls {
    ghost use Rattle.disk_memory.specs.Calls.{CallCounts};

    ghost Value = { CallCounts };

    ghost view = { λ c. record { fail_list = c.fail_list.items; calls = c.calls; faults = c.faults; refused = c.refused } };
}

impl Calls {
    /// No call so far. The calls whose numbers from 0 stand in the list are to fail.
    pub fn new(fail_list: Vec<u64>) -> Calls
        ensures { result ≡ record { fail_list = fail_list.items; calls = 0; faults = 0; refused = 0 } }
    {
        Calls {
            fail_list,
            calls: 0,
            faults: 0,
            refused: 0,
        }
    }

    /// Counts a call, and its fault where the call is to fail, which it answers.
    pub fn is_to_fail(&mut self) -> bool
        ensures listed { result ≡ is_listed self.old }
        ensures counts { self.new ≡ after_call result self.old }
        ensures later { self.old.faults ≤ self.new.faults }
    {
        let failed = self.fail_list.contains(&self.calls);
        self.calls = self.calls.saturating_add(1);
        if failed {
            self.faults = self.faults.saturating_add(1);
        }
        failed
    }

    /// Counts a fault of the call that was counted last.
    pub fn count_fault(&mut self)
        ensures counts { self.new ≡ record self.old { faults = one_more self.old.faults } }
        ensures later { self.old.faults ≤ self.new.faults }
    {
        self.faults = self.faults.saturating_add(1);
    }

    /// Counts that the call that was counted last found no memory, which is a fault.
    pub fn count_refusal(&mut self)
        ensures counts { self.new ≡ record self.old { faults = one_more self.old.faults; refused = one_more self.old.refused } }
        ensures later { self.old.faults ≤ self.new.faults }
    {
        self.faults = self.faults.saturating_add(1);
        self.refused = self.refused.saturating_add(1);
    }

    /// How many calls found no memory.
    pub fn refused(&self) -> u64
        ensures { result ≡ self.now.refused }
    {
        self.refused
    }
}
