ghost use Rattle.std.specs.Prelude.{◌≡◌, ◌≤◌, ◌↔◌, IsTrue, Contains};
ghost use Rattle.aw_lists.specs.Faults.{next_count};

use crate::list::List;

/// Counts the calls and the faults of a device, each up to 2^64-1, and knows the numbers of the calls
/// that are to fail.
#[derive(Debug, Drop)]
pub struct FailingCalls {
    /// The numbers of the calls that are to fail, from 0.
    pub listed: List<u64>,
    /// How many calls there were, which is the number of the next one.
    pub calls: u64,
    /// How many of them failed.
    pub faults: u64,
}

impl FailingCalls {
    /// No call was made yet.
    pub fn new(listed: List<u64>) -> FailingCalls
        ensures { result ≡ record { listed = listed; calls = 0; faults = 0 } }
    {
        FailingCalls {
            listed,
            calls: 0,
            faults: 0,
        }
    }

    /// Counts a call, and says whether it is to fail.
    pub fn next_fails(&mut self) -> bool
        ensures listed { IsTrue result ↔ Contains self.old.listed self.old.calls }
        ensures counted { self.new ≡ record self.old { calls = next_count self.old.calls } }
    {
        let fails = self.listed.as_slice().contains(&self.calls);
        self.calls = self.calls.saturating_add(1);
        fails
    }

    /// Counts a fault.
    pub fn count_fault(&mut self)
        ensures counted { self.new ≡ record self.old { faults = next_count self.old.faults } }
        ensures later { self.old.faults ≤ self.new.faults }
    {
        self.faults = self.faults.saturating_add(1);
    }
}
