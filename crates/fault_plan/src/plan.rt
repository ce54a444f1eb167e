ghost use Rattle.std.specs.Prelude.{◌≡◌, ◌↔◌, ◌≤◌, IfOk, IsTrue};
ghost use Rattle.fault_plan.specs.Plan.{FailsNext, after_call, planned};

use avl_values::NoMemory;
use std::alloc::Global;
use std::marker::Model;

/// A count of calls, of which those of chosen numbers fail (this project's own). The first call has number 0. The count
/// stops at 2^64 - 1.
#[derive(Drop)]
pub struct FaultPlan {
    failing: Vec<u64>,
    calls: u64,
}

impl Model for FaultPlan {
    ghost use Rattle.fault_plan.specs.Plan.{Plan};

    ghost Value = { Plan };

    ghost view = { λ p. record { failing = p.failing.items; calls = p.calls } };
}

impl FaultPlan {
    /// The calls of these numbers will fail. None was made yet.
    pub fn new(alloc: Global, failing: &[u64]) -> Result<FaultPlan, NoMemory>
        ensures { IfOk result (λ plan. plan ≡ planned failing.now) }
    {
        Ok(FaultPlan {
            failing: Vec::from_slice(alloc, failing)?,
            calls: 0,
        })
    }

    /// Counts a call, and says whether it fails. It takes no memory.
    pub fn next_fails(&mut self) -> bool
        ensures fails { IsTrue result ↔ FailsNext self.old }
        ensures counted { self.new ≡ after_call self.old }
        ensures later { self.old.calls ≤ self.new.calls }
    {
        let call = self.calls;
        self.calls = call.saturating_add(1);
        self.failing.contains(&call)
    }
}
