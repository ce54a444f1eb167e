ghost use Rattle.std.specs.Prelude.{◌≡◌, ◌≢◌, ◌⊎◌, ◌+◌, ◌*◌, ◌<◌, ◌≤◌, ◌^◌, ℕ, false, length, Some, None, IfOk, IfErr, OnOk, OnErr, IsErrOf, IsTrue};
ghost use Rattle.medium_model.specs.CallsLeft.{Fails};
ghost use Rattle.medium_model.specs.Content.{after_sync};
ghost use Rattle.medium_model.specs.Images.{IsEither};
ghost use Rattle.medium_model.specs.State.{CountedMaybe, CountedSome, IfTold, IsRun, told};
ghost use Rattle.medium_model.specs.PowerLoss.{EveryImage, WasImage};
ghost use Rattle.flash_ring.specs.Held.{AreSound};
ghost use Rattle.flash_ring.specs.Images.{IsSettled};
ghost use Rattle.flash_ring.specs.Queue.{queue_of};
ghost use Rattle.std.specs.VecDeque.{deque_capacity};
ghost use Rattle.flash_ring.specs.Refusal.{Refuses, RefusesOpen, as_open};
ghost use Rattle.flash_ring.specs.Slot.{IsFlash, slots_of};
ghost use Rattle.flash_ring.specs.declared.load.ReopenFault.TheVariants.{MediumFault};
ghost use Rattle.flash_ring.specs.declared.load.OpenFault.TheVariants as opening;

use crate::held::{Held, SLOT_BYTES, Unsound, read_slot};
use crate::queue::{empty, fill};
use crate::rank::Found;
use avl_values::{Failed, NoMemory};
use medium_model::{Medium, ReserveError};
use std::alloc::Global;
use std::collections::VecDeque;

/// Why a ring isn't opened again. It is down.
#[derive(Clone, Copy, Debug, PartialEq, Eq)]
pub enum ReopenFault {
    /// The medium failed in this call.
    MediumFault,
    /// The medium's length isn't that of the slots.
    WrongSize { got: u64, wanted: u64 },
    /// The first slot whose gate is open and whose fields aren't a record.
    BadSlot { slot: u16 },
}

impl From<Failed> for ReopenFault {
    ghost from_gives = { λ _ e. e ≡ MediumFault };

    fn from(_: Failed) -> Self {
        ReopenFault::MediumFault
    }
}

/// Why a ring isn't opened. The medium is handed back.
#[derive(Clone, Copy, Debug, PartialEq, Eq)]
pub enum OpenFault {
    /// The medium failed in this call.
    MediumFault,
    /// The medium's length isn't that of the slots.
    WrongSize { got: u64, wanted: u64 },
    /// The first slot whose gate is open and whose fields aren't a record.
    BadSlot { slot: u16 },
    /// A growth of memory was refused.
    NoMemory,
}

impl From<ReopenFault> for OpenFault {
    ghost from_gives = { λ fault e. e ≡ as_open fault };

    fn from(fault: ReopenFault) -> Self {
        match fault {
            ReopenFault::MediumFault => OpenFault::MediumFault,
            ReopenFault::WrongSize { got, wanted } => OpenFault::WrongSize { got, wanted },
            ReopenFault::BadSlot { slot } => OpenFault::BadSlot { slot },
        }
    }
}

impl From<NoMemory> for OpenFault {
    ghost from_gives = { λ _ e. e ≡ opening.NoMemory };

    fn from(_: NoMemory) -> Self {
        OpenFault::NoMemory
    }
}

/// That many closed slots.
pub fn closed_slots(alloc: Global, slots: u16) -> Result<Vec<Option<Held>>, NoMemory>
    ensures { IfOk result (λ v. length v.items ≡ slots) }
{
    let mut closed = Vec::with_capacity(alloc, slots as usize)?;
    for _slot in 0..slots {
        closed.push(None)?;
    }
    Ok(closed)
}

// Whether a read gave less than a whole slot. That is no closed slot: the medium ends there.
fn is_short(count: usize) -> bool
    ensures short { IsTrue result → count < 272 }
    ensures whole { result ≡ false → 272 ≤ count }
{
    count < SLOT_BYTES
}

// Reads every slot in place of what was known of it.
fn read_slots<M: Medium>(medium: &mut M, slots: &mut [Option<Held>]) -> Result<(), ReopenFault>
    requires few { length slots.old ≤ 4096 }
    ensures content { (M.state medium.new).content ≡ (M.state medium.old).content }
    ensures counted { CountedMaybe (M.state medium.old) (M.state medium.new) (IsErrOf result ReopenFault.MediumFault) }
    ensures sound { OnOk result (AreSound slots.new) }
    ensures holds { OnOk result (IfTold (M.state medium.old).content (λ c. length c.reads ≡ 272 * length slots.old → IsFlash (length slots.old) c.reads × (slots.new ≡ slots_of (length slots.old) c.reads))) }
    ensures refused { IfErr result (λ e. IfTold (M.state medium.old).content (λ c. length c.reads ≡ 272 * length slots.old → Refuses (length slots.old) c.reads e)) }
{
    for slot in 0..slots.len() {
        let mut bytes = [0; SLOT_BYTES];
        let count = medium.read((SLOT_BYTES * slot) as u64, &mut bytes)?;
        if is_short(count) {
            return Err(ReopenFault::WrongSize {
                got: (SLOT_BYTES * slot + count) as u64,
                wanted: (SLOT_BYTES * slots.len()) as u64,
            });
        }
        match read_slot(&bytes[..count]) {
            Ok(held) => slots[slot] = held,
            Err(Unsound) => return Err(ReopenFault::BadSlot { slot: slot as u16 }),
        }
    }
    Ok(())
}

/// Syncs, asks the length, and reads every slot. It takes no memory. At an Err some slots may have been read.
pub fn load<M: Medium>(medium: &mut M, slots: &mut [Option<Held>]) -> Result<(), ReopenFault>
    requires few { length slots.old ≤ 4096 }
    ensures settled { OnOk result (IfTold (M.state medium.new).content (IsSettled (length slots.old) slots.new)) }
    ensures holds { OnOk result (IfTold (M.state medium.old).content (λ c. slots.new ≡ slots_of (length slots.old) c.reads)) }
    ensures flash { OnOk result (IfTold (M.state medium.old).content (λ c. IsFlash (length slots.old) c.reads)) }
    ensures sound { OnOk result (AreSound slots.new) }
    ensures synced { OnOk result ((M.state medium.new).content ≡ told after_sync (M.state medium.old).content) }
    ensures either { IsEither (M.state medium.old).content (told after_sync (M.state medium.old).content) (M.state medium.new).content }
    ensures images { EveryImage (M.state medium.new).content (WasImage (M.state medium.old).content) }
    ensures refused { IfErr result (λ e. IfTold (M.state medium.old).content (λ c. Refuses (length slots.old) c.reads e)) }
    ensures first_call { Fails 1 (M.state medium.old).left → IsErrOf result ReopenFault.MediumFault }
    ensures counted { CountedSome (M.state medium.old) (M.state medium.new) (IsErrOf result ReopenFault.MediumFault) }
{
    medium.sync()?;
    let got = medium.len()?;
    let wanted = (SLOT_BYTES * slots.len()) as u64;
    if got != wanted {
        return Err(ReopenFault::WrongSize { got, wanted });
    }
    read_slots(medium, slots)
}

/// The same, of the slots of a `Vec`.
#[tactic(auto, using(crate::proofs::Loads::front_of))]
pub fn load_all<M: Medium>(medium: &mut M, slots: &mut Vec<Option<Held>>) -> Result<(), ReopenFault>
    requires few { length slots.old.items ≤ 4096 }
    ensures size { length slots.new.items ≡ length slots.old.items }
    ensures settled { OnOk result (IfTold (M.state medium.new).content (IsSettled (length slots.old.items) slots.new.items)) }
    ensures holds { OnOk result (IfTold (M.state medium.old).content (λ c. slots.new.items ≡ slots_of (length slots.old.items) c.reads)) }
    ensures flash { OnOk result (IfTold (M.state medium.old).content (λ c. IsFlash (length slots.old.items) c.reads)) }
    ensures sound { OnOk result (AreSound slots.new.items) }
    ensures synced { OnOk result ((M.state medium.new).content ≡ told after_sync (M.state medium.old).content) }
    ensures either { IsEither (M.state medium.old).content (told after_sync (M.state medium.old).content) (M.state medium.new).content }
    ensures images { EveryImage (M.state medium.new).content (WasImage (M.state medium.old).content) }
    ensures refused { IfErr result (λ e. IfTold (M.state medium.old).content (λ c. Refuses (length slots.old.items) c.reads e)) }
    ensures first_call { Fails 1 (M.state medium.old).left → IsErrOf result ReopenFault.MediumFault }
    ensures counted { CountedSome (M.state medium.old) (M.state medium.new) (IsErrOf result ReopenFault.MediumFault) }
{
    load(medium, slots.as_mut_slice())
}

// Makes the medium ready for writes up to a place.
fn make_ready<M: Medium>(medium: &mut M, to: u64) -> Result<(), OpenFault>
    requires { to ≤ 2 ^ 62 }
    ensures enough { OnOk result (to ≤ (M.state medium.new).ready) }
    ensures content { (M.state medium.new).content ≡ (M.state medium.old).content }
    ensures faults { IfErr result (λ e. (e ≡ OpenFault.MediumFault) ⊎ (e ≡ OpenFault.NoMemory)) }
    ensures run { IsRun (M.state medium.old) (M.state medium.new) (IsErrOf result OpenFault.MediumFault) }
{
    match medium.reserve(to) {
        Ok(()) => Ok(()),
        Err(ReserveError::Failed) => Err(OpenFault::MediumFault),
        Err(ReserveError::NoMemory) => Err(OpenFault::NoMemory),
    }
}

/// Makes the medium ready, takes memory for `slots` slots and for the queue of open ones, and loads them.
pub fn load_anew<M: Medium>(
    alloc: Global,
    medium: &mut M,
    slots: u16,
) -> Result<(Vec<Option<Held>>, VecDeque<Found>), OpenFault>
    requires few { slots ≤ 4096 }
    ensures size { IfOk result (λ found. length found.0.items ≡ slots) }
    ensures room { IfOk result (λ found. slots ≤ deque_capacity found.1) }
    ensures queue { IfOk result (λ found. found.1.items ≡ queue_of found.0.items) }
    ensures ready { OnOk result (272 * slots ≤ (M.state medium.new).ready) }
    ensures settled { IfOk result (λ found. IfTold (M.state medium.new).content (IsSettled slots found.0.items)) }
    ensures holds { IfOk result (λ found. IfTold (M.state medium.old).content (λ c. found.0.items ≡ slots_of slots c.reads)) }
    ensures flash { OnOk result (IfTold (M.state medium.old).content (λ c. IsFlash slots c.reads)) }
    ensures sound { IfOk result (λ found. AreSound found.0.items) }
    ensures synced { OnOk result ((M.state medium.new).content ≡ told after_sync (M.state medium.old).content) }
    ensures either { IsEither (M.state medium.old).content (told after_sync (M.state medium.old).content) (M.state medium.new).content }
    ensures images { EveryImage (M.state medium.new).content (WasImage (M.state medium.old).content) }
    ensures refused { IfErr result (λ e. IfTold (M.state medium.old).content (λ c. RefusesOpen slots c.reads e)) }
    ensures run { IsRun (M.state medium.old) (M.state medium.new) (IsErrOf result OpenFault.MediumFault) }
{
    make_ready(medium, SLOT_BYTES as u64 * slots as u64)?;
    let mut found = closed_slots(alloc, slots)?;
    let mut queue = empty(alloc, slots)?;
    load_all(medium, &mut found)?;
    fill(&mut queue, &found);
    Ok((found, queue))
}
