// The plan of which calls fail.
ghost use Rattle.std.specs.Prelude.{◌≡◌};
ghost use Rattle.mem_devices.specs.MemDiskPlan.{fails_next, after_call};

use std::marker::Model;

/// Which calls of a disk fail, and the number of the next one.
#[derive(Drop)]
pub struct FaultPlan {
    failing: Vec<u64>,
    stop_after: Option<u64>,
    calls: u64,
}

impl Model for FaultPlan {
    ghost use Rattle.mem_devices.specs.MemDiskPlan.{MemDiskPlan};

    ghost Value = { MemDiskPlan };

    ghost view = { λ plan. record {
      failing = plan.failing.items;
      stop_after = plan.stop_after;
      calls = plan.calls;
    } };
}

impl FaultPlan {
    /// A plan before its first call.
    pub fn new(failing: Vec<u64>, stop_after: Option<u64>) -> FaultPlan
        ensures { result ≡ record { failing = failing.items; stop_after = stop_after; calls = 0 } }
    {
        FaultPlan {
            failing,
            stop_after,
            calls: 0,
        }
    }

    /// Counts a call, and answers whether it is to fail.
    pub fn next_fails(&mut self) -> bool
        ensures fails { result ≡ fails_next self.old }
        ensures counted { self.new ≡ after_call self.old }
    {
        let fails = self.failing.contains(&self.calls)
            || self.stop_after.is_some_and(|most| most <= self.calls);
        self.calls = self.calls.saturating_add(1);
        fails
    }
}
