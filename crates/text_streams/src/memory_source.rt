ghost use Rattle.std.specs.Prelude.{◌≡◌, ◌↔◌, ℕ, ◌<◌, ◌≤◌, List, min, Some, IfOk, IsErr, length, take, drop};
ghost use Rattle.std.specs.Io.{ReadsAtMost};
ghost use Rattle.std.specs.Io.KnownBytes.{ReadConsumes};
ghost use Rattle.avl_values.specs.Causes.{HasCause};
ghost use Rattle.fault_plan.specs.Plan.{FailsNext, after_call};
ghost use Rattle.text_streams.specs.Memory.{source_state, unread};

use crate::source::Source;
use avl_values::{Failed, NoMemory};
use fault_plan::FaultPlan;
use std::alloc::Global;
use std::marker::Model;

/// A text in memory, whose reads fail at chosen calls.
#[derive(Drop)]
pub struct MemorySource {
    bytes: Vec<u8>,
    at: usize,
    plan: FaultPlan,
    faults: u64,
}

impl Model for MemorySource {
    ghost use Rattle.std.specs.Prelude.{◌≤◌, ◌<◌, ◌^◌, drop, vec_len};
    ghost use Rattle.text_streams.specs.Memory.{MemorySourceView};

    ghost Value = { MemorySourceView };

    ghost view = { λ s. record { left = drop s.at s.bytes.items; plan = s.plan; faults = s.faults } };

    ghost invariant = { λ s. s.at ≤ vec_len s.bytes };
}

/// Copies what fits from `bytes`, from `at` on, to the front of `into`, and says how much.
fn copy_from(bytes: &[u8], at: usize, into: &mut [u8]) -> usize
    requires { at ≤ length bytes.now }
    ensures count { result ≡ min (length into.old) (length (drop at bytes.now)) }
    ensures copied { take result into.new ≡ take result (drop at bytes.now) }
{
    let count = into.len().min(bytes.len() - at);
    into[..count].copy_from_slice(&bytes[at..at + count]);
    count
}

impl MemorySource {
    /// A source of these bytes, which fails exactly at the calls of `read` whose numbers, from 0, are in `failing`.
    pub fn new(alloc: Global, bytes: &[u8], failing: &[u64]) -> Result<MemorySource, NoMemory>
        ensures { IfOk result (λ source. source ≡ unread bytes.now failing.now) }
    {
        Ok(MemorySource {
            bytes: Vec::from_slice(alloc, bytes)?,
            at: 0,
            plan: FaultPlan::new(alloc, failing)?,
            faults: 0,
        })
    }
}

impl Source for MemorySource {
    ghost state = { λ s. source_state s };

    fn faults(&self) -> u64 {
        self.faults
    }

    fn read(&mut self, into: &mut [u8]) -> Result<usize, Failed>
        ensures bound { ReadsAtMost result into.new }
        ensures bytes { ReadConsumes (Some self.old.left) (Some self.new.left) result into.new }
        ensures cause { HasCause self.old.faults self.new.faults result }

        // it fails exactly at the chosen calls, and else gives all that fits
        ensures fails { IsErr result ↔ FailsNext self.old.plan }
        ensures gives { IfOk result (λ n. n ≡ min (length into.old) (length self.old.left)) }
        ensures counted { self.new.plan ≡ after_call self.old.plan }
    {
        if self.plan.next_fails() {
            self.faults = self.faults.saturating_add(1);
            return Err(Failed);
        }
        let count = copy_from(&self.bytes, self.at, into);
        self.at += count;
        Ok(count)
    }
}
