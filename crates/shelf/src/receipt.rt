ghost use Rattle.std.specs.Prelude.{◌≡◌, ◌≤◌, ◌^◌, length, IfOk};
ghost use Rattle.record_layout.specs.RecordsOf.{count_of};
ghost use Rattle.record_layout.specs.Body.{IsBody};
ghost use Rattle.record_layout.specs.declared.head.PacketHead.{PacketHead};

use arrayvec::ArrayVec;
use avl_values::{Imei, NoMemory};

/// What is said of a packet that was admitted.
#[derive(Debug, Drop)]
pub struct Receipt {
    /// The number of its records, 1 to 255.
    pub count: u8,
    /// The place of each of its records in the record list, in the packet's order, counted from 0.
    pub places: ArrayVec<u64, 255>,
}

/// Why a packet isn't admitted.
#[derive(Clone, Copy, Debug, PartialEq, Eq)]
pub enum AdmitFault {
    /// An earlier call returned MediumFault. Nothing has changed, and no call of the medium was made.
    Down {
        /// How often the medium has failed, above that at opening.
        faults: u64,
    },
    /// A growth of memory was refused. Nothing has changed.
    NoMemory,
    /// The medium failed in this call. The record list is as before, and the shelf is down.
    MediumFault {
        /// How often the medium has failed, this call included.
        faults: u64,
    },
}

impl From<NoMemory> for AdmitFault {
    ghost use Rattle.shelf.specs.declared.receipt.AdmitFault.TheVariants as fault;

    ghost from_gives = { λ _ e. e ≡ fault.NoMemory };

    fn from(_: NoMemory) -> Self {
        AdmitFault::NoMemory
    }
}

/// Where packets are admitted, one call after the other.
pub trait Admit {
    ghost use Rattle.std.specs.Prelude.{ℕ, List, Option, Result};
    ghost use Rattle.shelf.specs.Calls.{Brought, Mark, TellsCall};
    ghost use Rattle.shelf.specs.declared.receipt.Receipt.{Receipt};
    ghost use Rattle.shelf.specs.declared.receipt.AdmitFault.{AdmitFault};

    /// What a call leaves: the state before, the device, the body, the answer, and the state after.
    ghost leaves: { Self → ℕ → List ℕ → Result Receipt AdmitFault → Self → Type 0 };

    /// The calls so far, in order, where it tells them.
    ghost calls: { Self → Option (List Brought) };

    /// What it marks its calls with.
    ghost mark: { Self → Mark };

    /// Admits the records of a data body for a device.
    fn admit(&mut self, imei: Imei, body: &[u8]) -> Result<Receipt, AdmitFault>
        requires few { length body.now ≤ 2 ^ 31 }
        requires accepted { (head : PacketHead) × IsBody head body.now }
        ensures leaves { leaves self.old imei body.now result self.new }
        ensures receipt { IfOk result (λ r. r.count ≡ count_of body.now) };

    /// A call puts itself after those that are told, under the mark, which no call changes.
    ghost tells: { (s : Self) (imei : ℕ) (body : List ℕ) (result : Result Receipt AdmitFault) (t : Self) → leaves s imei body result t → TellsCall imei body result (mark s) (mark t) (calls s) (calls t) };
}
