ghost use Rattle.std.specs.Prelude.{◌≡◌, ◌↔◌, ℕ, ◌<◌, ◌≤◌, ◌-◌, List, min, Some, IfOk, IsErr, length};
ghost use Rattle.std.specs.Io.{WritesAtMost};
ghost use Rattle.std.specs.Io.KnownBytes.{WriteAppends};
ghost use Rattle.avl_values.specs.Causes.{HasCause};
ghost use Rattle.fault_plan.specs.Plan.{after_call};
ghost use Rattle.text_streams.specs.Memory.{IsRefused, sink_state, unwritten};

use crate::sink::Sink;
use avl_values::{Failed, NoMemory};
use fault_plan::FaultPlan;
use std::alloc::Global;
use std::marker::Model;

/// A sink in memory, with room for a chosen number of bytes, whose writes fail at chosen calls.
#[derive(Drop)]
pub struct MemorySink {
    bytes: Vec<u8>,
    room: usize,
    plan: FaultPlan,
    faults: u64,
}

impl Model for MemorySink {
    ghost use Rattle.std.specs.Prelude.{◌≤◌, vec_len};
    ghost use Rattle.std.specs.Vec.{vec_capacity};
    ghost use Rattle.text_streams.specs.Memory.{MemorySinkView};

    ghost Value = { MemorySinkView };

    ghost view = { λ s. record { written = s.bytes.items; room = s.room; plan = s.plan; faults = s.faults } };

    ghost invariant = { λ s. (vec_len s.bytes ≤ s.room) × (s.room ≤ vec_capacity s.bytes) };
}

impl MemorySink {
    /// A sink with room for N bytes, which it takes at once. A write fails exactly at the calls whose numbers, from
    /// 0, are in `failing`, and where no room is left.
    pub fn new(alloc: Global, room: usize, failing: &[u64]) -> Result<MemorySink, NoMemory>
        ensures { IfOk result (λ sink. sink ≡ unwritten room failing.now) }
    {
        Ok(MemorySink {
            bytes: Vec::with_capacity(alloc, room)?,
            room,
            plan: FaultPlan::new(alloc, failing)?,
            faults: 0,
        })
    }

    /// The bytes that were written.
    pub fn written(&self) -> &[u8]
        ensures { result.now ≡ self.now.written }
    {
        self.bytes.as_slice()
    }
}

impl Sink for MemorySink {
    ghost state = { λ s. sink_state s };

    fn faults(&self) -> u64 {
        self.faults
    }

    fn write(&mut self, from: &[u8]) -> Result<usize, Failed>
        ensures bound { WritesAtMost result from.now }
        ensures some { 0 < length from.now → IfOk result (λ n. 0 < n) }
        ensures bytes { WriteAppends (Some self.old.written) (Some self.new.written) result from.now }
        ensures cause { HasCause self.old.faults self.new.faults result }

        // it fails exactly at the chosen calls and where no room is left, and else takes all that fits
        ensures fails { IsErr result ↔ IsRefused self.old }
        ensures takes { IfOk result (λ n. n ≡ min (length from.now) (self.old.room - length self.old.written)) }
        ensures counted { self.new.plan ≡ after_call self.old.plan }
        ensures room { self.new.room ≡ self.old.room }
    {
        if self.plan.next_fails() || self.bytes.len() == self.room {
            self.faults = self.faults.saturating_add(1);
            return Err(Failed);
        }
        let count = from.len().min(self.room - self.bytes.len());
        self.bytes.extend_from_slice(&from[..count]).unwrap();
        Ok(count)
    }
}
