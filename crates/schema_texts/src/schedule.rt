//! Which calls of a judge fail.
ghost use Rattle.std.specs.Prelude.{◌≡◌, ◌↔◌, ◌+◌, ◌-◌, ◌^◌, ◌≤◌, min, Contains, IsErr, IfErr, OnOk, OnErr};

use crate::judge::TextFault;

/// The numbers of the calls that fail, counted from 0, how many calls there were, and how many of them failed. Both
/// counts stop at their last value.
#[derive(Drop)]
pub(crate) struct Schedule {
    pub(crate) failing: Vec<u64>,
    pub(crate) calls: u64,
    pub(crate) faults: u64,
}

impl Schedule {
    /// A schedule before its first call.
    pub(crate) fn new(failing: Vec<u64>) -> Schedule
        ensures failing { result.failing ≡ failing }
        ensures calls { result.calls ≡ 0 }
        ensures faults { result.faults ≡ 0 }
    {
        Schedule {
            failing,
            calls: 0,
            faults: 0,
        }
    }

    /// Counts a call, which fails where its number is among those that do.
    pub(crate) fn pass(&mut self) -> Result<(), TextFault>
        ensures due { IsErr result ↔ Contains self.old.failing.items self.old.calls }
        ensures cause { IfErr result (λ e. e ≡ TextFault.Failed) }
        ensures failing { self.new.failing ≡ self.old.failing }
        ensures calls { self.new.calls ≡ min (self.old.calls + 1) (2 ^ 64 - 1) }
        ensures fault { OnErr result (self.new.faults ≡ min (self.old.faults + 1) (2 ^ 64 - 1)) }
        ensures kept { self.old.faults ≤ self.new.faults }
        ensures quiet { OnOk result (self.new.faults ≡ self.old.faults) }
    {
        let due = self.failing.contains(&self.calls);
        self.calls = self.calls.saturating_add(1);
        if due {
            self.faults = self.faults.saturating_add(1);
            return Err(TextFault::Failed);
        }
        Ok(())
    }
}
