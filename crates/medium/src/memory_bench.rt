ghost use Rattle.std.specs.Prelude.{◌≡◌, ◌≢◌, ◌⊎◌, ◌↔◌, ◌+◌, ◌-◌, ◌<◌, ◌≤◌, ◌^◌, ℕ, List, Some, [], min, length, take, drop, IfOk, OnOk, OnErr, IsErr, IsErrOf, IsSome, IsTrue, refl};
ghost use Rattle.avl_values.specs.Causes.{Rose};
ghost use Rattle.medium.specs.Buffer.{IsTornImage};
ghost use Rattle.medium_model.specs.CallsLeft.{MayFail, unlimited, after};
ghost use Rattle.medium_model.specs.Content.{after_write, after_sync, settled};
ghost use Rattle.medium_model.specs.PowerLoss.{IsImage};
ghost use Rattle.medium.specs.Memory.{after_torn, all_alike, bench_state, image_of, left_told};
ghost use Rattle.medium_model.specs.State.{Counted, IfTold, IsRestarted, TornWrite, told};

use crate::memory_content::MemoryContent;
use crate::power::Power;
use crate::torn_images::TornImages;
use avl_values::{Failed, NoMemory};
use medium_model::{Bench, MAX_PLACE, Medium, ReserveError, Tear};
use std::alloc::Global;
use std::marker::Model;

/// A bench in memory. After a restart it reads as the image of the tear that it was armed with, and as its durable content
/// where it was unarmed: the content at the last sync that succeeded, and then each write since, torn, the write that met
/// the power loss included.
#[derive(Drop)]
pub struct MemoryBench {
    content: MemoryContent,
    tears: TornImages,
    tear: Tear,
    power: Power,
    faults: u64,
}

impl Model for MemoryBench {
    ghost use Rattle.medium.specs.Memory.{BenchView, IsBench};

    ghost Value = { BenchView };

    ghost view = { λ b. record { content = b.content.content; tears = b.tears.tears; ready = b.content.ready; tear = b.tear; power = b.power; faults = b.faults } };

    ghost invariant = { λ b. IsBench b.content b.tears b.tear b.power };
}

impl MemoryBench {
    /// It is empty, unarmed and without faults.
    pub fn new(alloc: Global) -> Result<MemoryBench, NoMemory>
        ensures { IfOk result (λ b. b ≡ record { content = settled []; tears = all_alike []; ready = 0; tear = Tear.Keep; power = Power.Unarmed; faults = 0 }) }
    {
        Ok(MemoryBench {
            content: MemoryContent::new(alloc),
            tears: TornImages::new(alloc),
            tear: Tear::Keep,
            power: Power::Unarmed,
            faults: 0,
        })
    }

    /// All that a read gives.
    pub fn content(&self) -> &[u8]
        ensures { result.now ≡ self.now.content.reads }
    {
        self.content.as_slice()
    }

    // Counts a call, and fails where the power is lost, or is lost at it.
    fn pass(&mut self) -> Result<(), Failed>
        ensures rest { self.new ≡ record self.old { power = self.new.power; faults = self.new.faults } }
        ensures counted { Counted 1 (bench_state self.old) (bench_state self.new) (IsErr result) }
    {
        match self.power {
            Power::Unarmed => Ok(()),
            Power::Armed(0) => {
                self.power = Power::Lost;
                self.faults = self.faults.saturating_add(1);
                Err(Failed)
            }
            Power::Armed(calls) => {
                self.power = Power::Armed(calls - 1);
                Ok(())
            }
            Power::Lost => {
                self.faults = self.faults.saturating_add(1);
                Err(Failed)
            }
        }
    }

    fn grow(&mut self, to: u64) -> Result<(), NoMemory>
        requires { to ≤ 2 ^ 62 }
        ensures enough { OnOk result (to ≤ self.new.ready) }
        ensures ready { self.old.ready ≤ self.new.ready }
        ensures most { self.new.ready ≤ 2 ^ 62 }
        ensures rest { self.new ≡ record self.old { ready = self.new.ready } }
        ensures err { OnErr result (self.new ≡ self.old) }
    {
        // The proof takes from it that it is ready up to 2^62 at most.
        let _ready = self.content.ready();
        self.tears.grow(to as usize)?;
        self.content.reserve(to)?;
        Ok(())
    }
}

impl Medium for MemoryBench {
    ghost state = { bench_state };

    fn faults(&self) -> u64 {
        // The proof takes from it that what is read is an image, and how far it is ready.
        let _ready = self.content.ready();
        self.faults
    }

    fn reserve(&mut self, to: u64) -> Result<(), ReserveError>
        ensures enough { OnOk result (to ≤ self.new.ready) }
        ensures above { 2 ^ 62 < to → IsErrOf result ReserveError.Failed }
        ensures failed { IsErrOf result ReserveError.Failed → (2 ^ 62 < to) ⊎ MayFail (bench_state self.old).left }
        ensures cause { IsErrOf result ReserveError.Failed → Rose self.old.faults self.new.faults }
        ensures later { self.old.faults ≤ self.new.faults }
        ensures ready { self.old.ready ≤ self.new.ready }
        ensures most { self.new.ready ≤ 2 ^ 62 }
        ensures content { (bench_state self.new).content ≡ (bench_state self.old).content }
        ensures left { (bench_state self.new).left ≡ (bench_state self.old).left }
        ensures unreserved { IsErrOf result ReserveError.NoMemory → bench_state self.new ≡ bench_state self.old }

        ensures rest { self.new ≡ record self.old { ready = self.new.ready; faults = self.new.faults } }
        ensures lost { self.old.power ≡ Power.Lost → IsErrOf result ReserveError.Failed }
    {
        if self.ran_out() || to > MAX_PLACE {
            // The proof takes from it that it is ready up to 2^62 at most.
            let _ready = self.content.ready();
            self.faults = self.faults.saturating_add(1);
            return Err(ReserveError::Failed);
        }
        match self.grow(to) {
            Ok(()) => Ok(()),
            Err(NoMemory) => Err(ReserveError::NoMemory),
        }
    }

    fn len(&mut self) -> Result<u64, Failed>
        ensures len { IfOk result (λ n. IfTold (bench_state self.old).content (λ c. n ≡ length c.reads)) }
        ensures content { (bench_state self.new).content ≡ (bench_state self.old).content }
        ensures counted { Counted 1 (bench_state self.old) (bench_state self.new) (IsErr result) }

        ensures rest { self.new ≡ record self.old { power = self.new.power; faults = self.new.faults } }
    {
        self.pass()?;
        Ok(self.content.len())
    }

    fn read(&mut self, at: u64, into: &mut [u8]) -> Result<usize, Failed>
        ensures bound { IfOk result (λ n. n ≤ length into.new) }
        ensures count { IfOk result (λ n. IfTold (bench_state self.old).content (λ c. n ≡ min (length into.old) (length c.reads - at))) }
        ensures bytes { IfOk result (λ n. IfTold (bench_state self.old).content (λ c. take n into.new ≡ take n (drop at c.reads))) }
        ensures content { (bench_state self.new).content ≡ (bench_state self.old).content }
        ensures counted { Counted 1 (bench_state self.old) (bench_state self.new) (IsErr result) }

        ensures rest { self.new ≡ record self.old { power = self.new.power; faults = self.new.faults } }
    {
        self.pass()?;
        Ok(self.content.read(at, into))
    }

    fn write(&mut self, at: u64, from: &[u8]) -> Result<(), Failed>
        requires some { 0 < length from.now }
        requires ready { at + length from.now ≤ self.old.ready }
        ensures written { OnOk result ((bench_state self.new).content ≡ told (after_write at from.now) (bench_state self.old).content) }
        ensures torn { OnErr result (TornWrite at (length from.now) (bench_state self.old).content (bench_state self.new).content) }
        ensures counted { Counted 1 (bench_state self.old) (bench_state self.new) (IsErr result) }

        ensures same_tear { self.new.tear ≡ self.old.tear }
        ensures reaches { self.old.power ≢ Power.Lost → self.new.content ≡ after_write at from.now self.old.content }
        ensures tears { self.old.power ≢ Power.Lost → self.new.tears ≡ after_torn at from.now self.old.tears }
        ensures lost { self.old.power ≡ Power.Lost → self.new.tears ≡ self.old.tears }
        ensures lost_reads { self.old.power ≡ Power.Lost → self.new.content.reads ≡ self.old.content.reads }
    {
        if self.ran_out() {
            self.content.spoil(at, from.len());
            return self.pass();
        }
        self.content.write(at, from);
        self.tears.write(at, from);
        self.pass()
    }

    fn sync(&mut self) -> Result<(), Failed>
        ensures durable { OnOk result ((bench_state self.new).content ≡ told after_sync (bench_state self.old).content) }
        ensures was_image { OnOk result (IfTold (bench_state self.old).content (λ c. IsImage c c.reads)) }
        ensures unchanged { OnErr result ((bench_state self.new).content ≡ (bench_state self.old).content) }
        ensures counted { Counted 1 (bench_state self.old) (bench_state self.new) (IsErr result) }

        ensures same_tear { self.new.tear ≡ self.old.tear }
        ensures tears { OnOk result (self.new.tears ≡ all_alike self.old.content.reads) }
        ensures tears_stay { OnErr result (self.new.tears ≡ self.old.tears) }
    {
        self.pass()?;
        self.tears.settle(&self.content);
        self.content.sync();
        Ok(())
    }
}

impl Bench for MemoryBench {
    ghost tells = { λ b. refl };

    ghost counts = { λ b. left_told b.power };

    fn arm(&mut self, calls: u64, tear: Tear)
        ensures armed { bench_state self.new ≡ record (bench_state self.old) { left = after calls } }
        ensures tear { self.new ≡ record self.old { tear = tear; power = Power.Armed calls } }
    {
        self.tear = tear;
        self.power = Power::Armed(calls);
    }

    fn ran_out(&self) -> bool {
        matches!(self.power, Power::Lost)
    }

    fn restart(&mut self)
        ensures image { IsRestarted (bench_state self.old).content (bench_state self.new).content }
        ensures unarmed { (bench_state self.new).left ≡ unlimited }
        ensures was_unarmed { self.old.power ≡ Power.Unarmed → self.old.tear ≡ Tear.Keep }
        ensures ready { self.old.ready ≤ self.new.ready }
        ensures faults { self.new.faults ≡ self.old.faults }

        ensures tears { let image = image_of self.old.tear self.old.content self.old.tears in
            self.new ≡ record { content = settled image; tears = all_alike image; ready = self.old.ready; tear = Tear.Keep; power = Power.Unarmed; faults = self.old.faults } }
    {
        read_torn(&mut self.content, &self.tears, self.tear);
        self.tears.settle(&self.content);
        self.content.sync();
        self.tear = Tear::Keep;
        self.power = Power::Unarmed;
    }
}

// A read gives the image of the tear.
fn read_torn(content: &mut MemoryContent, tears: &TornImages, tear: Tear)
    requires room { content.old.ready ≤ tears.now.room }
    requires zero { IsTornImage content.old.content tears.now.tears.zero }
    requires opened { IsTornImage content.old.content tears.now.tears.opened }
    requires half { IsTornImage content.old.content tears.now.tears.half }
    ensures content { content.new ≡ record content.old { content = record content.old.content { reads = image_of tear content.old.content tears.now.tears } } }
    ensures was { IsImage content.old.content (image_of tear content.old.content tears.now.tears) }
{
    match tear {
        Tear::Keep => content.revert(),
        // The proof takes from it that what is read is an image.
        Tear::New => {
            let _ready = content.ready();
        }
        Tear::Zero => content.read_as(tears.zero()),
        Tear::AllOpen => content.read_as(tears.opened()),
        Tear::Half => content.read_as(tears.half()),
    }
}
