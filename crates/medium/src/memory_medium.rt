ghost use Rattle.std.specs.Prelude.{◌≡◌, ◌⊎◌, ◌↔◌, ◌+◌, ◌-◌, ◌<◌, ◌≤◌, ◌^◌, min, length, take, drop, IfOk, OnOk, OnErr, IsErr, IsErrOf, IsSome, IsTrue};
ghost use Rattle.avl_values.specs.Causes.{Rose};
ghost use Rattle.fault_plan.specs.Plan.{planned};
ghost use Rattle.medium_model.specs.CallsLeft.{MayFail};
ghost use Rattle.medium_model.specs.Content.{after_write, after_sync, settled};
ghost use Rattle.medium_model.specs.PowerLoss.{IsImage};
ghost use Rattle.medium.specs.Memory.{IsNumbered, memory_state};
ghost use Rattle.medium_model.specs.State.{Counted, IfTold, TornWrite, told};

use crate::memory_content::MemoryContent;
use avl_values::{Failed, NoMemory};
use fault_plan::FaultPlan;
use medium_model::{MAX_PLACE, Medium, ReserveError};
use std::alloc::Global;
use std::marker::Model;

/// A medium in memory that fails at chosen calls. The calls of `len`, `read`, `write` and `sync` are counted from 0; a count
/// stays at its type's greatest value. A write that fails changes nothing that a read gives.
#[derive(Drop)]
pub struct MemoryMedium {
    content: MemoryContent,
    plan: FaultPlan,
    faults: u64,
}

impl Model for MemoryMedium {
    ghost use Rattle.medium.specs.Memory.{MemoryView};

    ghost Value = { MemoryView };

    ghost view = { λ m. record { content = m.content.content; ready = m.content.ready; plan = m.plan; faults = m.faults } };
}

impl MemoryMedium {
    /// A medium of these bytes, all of them durable, that fails at the calls of these numbers.
    pub fn new(alloc: Global, content: &[u8], failing: &[u64]) -> Result<MemoryMedium, NoMemory>
        ensures { IfOk result (λ m. m ≡ record { content = settled content.now; ready = length content.now; plan = planned failing.now; faults = 0 }) }
    {
        if content.len() as u64 > MAX_PLACE {
            return Err(NoMemory);
        }
        let content = MemoryContent::from_slice(alloc, content)?;
        let plan = FaultPlan::new(alloc, failing)?;
        Ok(MemoryMedium {
            content,
            plan,
            faults: 0,
        })
    }

    /// All that a read gives.
    pub fn content(&self) -> &[u8]
        ensures { result.now ≡ self.now.content.reads }
    {
        self.content.as_slice()
    }

    // Counts a call, and fails where its number was chosen.
    fn pass(&mut self) -> Result<(), Failed>
        ensures numbered { IsNumbered self.old self.new (IsErr result) }
        ensures rest { self.new ≡ record self.old { plan = self.new.plan; faults = self.new.faults } }
        ensures counted { Counted 1 (memory_state self.old) (memory_state self.new) (IsErr result) }
    {
        if self.plan.next_fails() {
            self.faults = self.faults.saturating_add(1);
            return Err(Failed);
        }
        Ok(())
    }
}

impl Medium for MemoryMedium {
    ghost state = { memory_state };

    fn faults(&self) -> u64 {
        // The proof takes from it that what is read is an image, and how far it is ready.
        let _ready = self.content.ready();
        self.faults
    }

    fn reserve(&mut self, to: u64) -> Result<(), ReserveError>
        ensures enough { OnOk result (to ≤ self.new.ready) }
        ensures above { 2 ^ 62 < to → IsErrOf result ReserveError.Failed }
        ensures failed { IsErrOf result ReserveError.Failed → (2 ^ 62 < to) ⊎ MayFail (memory_state self.old).left }
        ensures cause { IsErrOf result ReserveError.Failed → Rose self.old.faults self.new.faults }
        ensures later { self.old.faults ≤ self.new.faults }
        ensures ready { self.old.ready ≤ self.new.ready }
        ensures most { self.new.ready ≤ 2 ^ 62 }
        ensures content { (memory_state self.new).content ≡ (memory_state self.old).content }
        ensures left { (memory_state self.new).left ≡ (memory_state self.old).left }
        ensures unreserved { IsErrOf result ReserveError.NoMemory → memory_state self.new ≡ memory_state self.old }

        ensures exactly { IsErrOf result ReserveError.Failed ↔ (2 ^ 62 < to) }
        ensures not_counted { self.new ≡ record self.old { ready = self.new.ready; faults = self.new.faults } }
    {
        if to > MAX_PLACE {
            // The proof takes from it that it is ready up to 2^62 at most.
            let _ready = self.content.ready();
            self.faults = self.faults.saturating_add(1);
            return Err(ReserveError::Failed);
        }
        match self.content.reserve(to) {
            Ok(()) => Ok(()),
            Err(NoMemory) => Err(ReserveError::NoMemory),
        }
    }

    fn len(&mut self) -> Result<u64, Failed>
        ensures len { IfOk result (λ n. IfTold (memory_state self.old).content (λ c. n ≡ length c.reads)) }
        ensures content { (memory_state self.new).content ≡ (memory_state self.old).content }
        ensures counted { Counted 1 (memory_state self.old) (memory_state self.new) (IsErr result) }

        ensures numbered { IsNumbered self.old self.new (IsErr result) }
    {
        self.pass()?;
        Ok(self.content.len())
    }

    fn read(&mut self, at: u64, into: &mut [u8]) -> Result<usize, Failed>
        ensures bound { IfOk result (λ n. n ≤ length into.new) }
        ensures count { IfOk result (λ n. IfTold (memory_state self.old).content (λ c. n ≡ min (length into.old) (length c.reads - at))) }
        ensures bytes { IfOk result (λ n. IfTold (memory_state self.old).content (λ c. take n into.new ≡ take n (drop at c.reads))) }
        ensures content { (memory_state self.new).content ≡ (memory_state self.old).content }
        ensures counted { Counted 1 (memory_state self.old) (memory_state self.new) (IsErr result) }

        ensures numbered { IsNumbered self.old self.new (IsErr result) }
    {
        self.pass()?;
        Ok(self.content.read(at, into))
    }

    fn write(&mut self, at: u64, from: &[u8]) -> Result<(), Failed>
        requires some { 0 < length from.now }
        requires ready { at + length from.now ≤ self.old.ready }
        ensures written { OnOk result ((memory_state self.new).content ≡ told (after_write at from.now) (memory_state self.old).content) }
        ensures torn { OnErr result (TornWrite at (length from.now) (memory_state self.old).content (memory_state self.new).content) }
        ensures counted { Counted 1 (memory_state self.old) (memory_state self.new) (IsErr result) }

        ensures numbered { IsNumbered self.old self.new (IsErr result) }
        ensures not_written { OnErr result (self.new.content.reads ≡ self.old.content.reads) }
    {
        match self.pass() {
            Ok(()) => {
                self.content.write(at, from);
                Ok(())
            }
            Err(Failed) => {
                self.content.spoil(at, from.len());
                Err(Failed)
            }
        }
    }

    fn sync(&mut self) -> Result<(), Failed>
        ensures durable { OnOk result ((memory_state self.new).content ≡ told after_sync (memory_state self.old).content) }
        ensures was_image { OnOk result (IfTold (memory_state self.old).content (λ c. IsImage c c.reads)) }
        ensures unchanged { OnErr result ((memory_state self.new).content ≡ (memory_state self.old).content) }
        ensures counted { Counted 1 (memory_state self.old) (memory_state self.new) (IsErr result) }

        ensures numbered { IsNumbered self.old self.new (IsErr result) }
    {
        self.pass()?;
        self.content.sync();
        Ok(())
    }
}
