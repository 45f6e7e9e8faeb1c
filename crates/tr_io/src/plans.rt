ghost use Rattle.std.specs.Prelude.{◌≡◌, ◌≤◌, ◌↔◌, Contains, IsErr};
ghost use Rattle.tr_io.specs.Faults.{next_count, faults_after};

use crate::streams::Failed;

/// The calls of a source or a sink that fail.
#[derive(Drop)]
pub(crate) struct FaultPlan {
    /// The numbers of the calls that fail, counted from 1.
    pub(crate) fails: Vec<u64>,
    /// The number of calls. It stops at 2^64 - 1.
    pub(crate) calls: u64,
    /// The number of calls that failed. It stops at 2^64 - 1.
    pub(crate) faults: u64,
}

impl FaultPlan {
    pub(crate) fn new(fails: Vec<u64>) -> FaultPlan
        ensures fails { result.fails ≡ fails }
        ensures calls { result.calls ≡ 0 }
        ensures faults { result.faults ≡ 0 }
    {
        FaultPlan {
            fails,
            calls: 0,
            faults: 0,
        }
    }

    /// Counts one more call, and fails if the plan says so.
    pub(crate) fn count_call(&mut self) -> Result<(), Failed>
        ensures planned { IsErr result ↔ Contains self.old.fails.items (next_count self.old.calls) }
        ensures fails { self.new.fails ≡ self.old.fails }
        ensures calls { self.new.calls ≡ next_count self.old.calls }
        ensures faults { self.new.faults ≡ faults_after result self.old.faults }
        ensures rising { self.old.faults ≤ self.new.faults }
    {
        self.calls = self.calls.saturating_add(1);
        if self.fails.contains(&self.calls) {
            self.faults = self.faults.saturating_add(1);
            return Err(Failed);
        }
        Ok(())
    }
}
