ghost use Rattle.std.specs.Prelude.{◌≡◌, ◌≤◌, ◌^◌, true, false, length, IfOk, IfErr, IsOk, IsSome, OnErr, OnOk};
ghost use Rattle.avl_values.specs.Causes.{IsAbove};
ghost use Rattle.medium_model.specs.CallsLeft.{after, unlimited};
ghost use Rattle.medium_model.specs.Content.{after_sync};
ghost use Rattle.medium_model.specs.State.{IfTold, IsRun, told};
ghost use Rattle.medium_model.specs.PowerLoss.{EveryImage};
ghost use Rattle.record_lists.specs.EachOnce.{IsOnce};
ghost use Rattle.record_layout.specs.RecordsOf.{count_of};
ghost use Rattle.archive_journal.specs.Entries.{IsArchive, entries_of};
ghost use Rattle.archive_journal.specs.Journal.{KeepsEntries, entries_told};
ghost use Rattle.shelf.specs.Archive.{devices_of, list_of, places_of};
ghost use Rattle.record_layout.specs.Body.{IsBody};
ghost use Rattle.record_layout.specs.declared.head.PacketHead.{PacketHead};
ghost use Rattle.shelf.specs.Shelf.{IsDurable, IsRestarted, Leaves};

use crate::keep::{KeepFault, keep};
use crate::listing::Listing;
use crate::receipt::{Admit, AdmitFault, Receipt};
use crate::stored::Stored;
use archive_journal::{ArchiveFault, Journal};
use avl_values::{Imei, NoMemory};
use medium_model::{Bench, Medium, Tear};
use std::alloc::Global;
use std::marker::Model;

/// A server's archive on a medium: each record of a device once, at its first place.
///
/// A packet that was admitted with a receipt has all its records in every image that a power loss may leave. After a call that
/// returned MediumFault the shelf is down: take the medium, and open it again.
#[derive(Drop)]
pub struct Shelf<M: Medium> {
    journal: Journal<M>,
    listing: Listing,
    down: bool,
    opened: u64,
    alloc: Global,
}

impl<M: Medium> Model for Shelf<M> {
    ghost use Rattle.shelf.specs.Shelf.{ShelfView, IsShelf};

    ghost Value = { ShelfView };

    ghost view = { λ s. record { medium = s.journal.medium; list = s.listing; down = s.down; opened = s.opened } };

    ghost invariant = { λ s. IsShelf s.journal s.listing s.down s.opened };
}

impl<M: Medium> Shelf<M> {
    /// Opens a medium that a power loss may have left. A file of at most nine bytes that is no archive becomes an
    /// empty one.
    pub fn open(alloc: Global, medium: M) -> Result<Shelf<M>, (ArchiveFault, M)>
        ensures durable { IfOk result IsDurable }
        ensures list { IfOk result (λ s. IfTold (M.state medium).content (λ c. s.list ≡ list_of (entries_of c.reads))) }
        ensures opened { IfOk result (λ s. s.opened ≡ s.medium.faults) }

        // It keeps the entries that a power loss might have left, also where it fails.
        ensures keeps { IfOk result (λ s. EveryImage s.medium.content (KeepsEntries (M.state medium).content)) }
        ensures keeps_err { IfErr result (λ e. EveryImage (M.state e.1).content (KeepsEntries (M.state medium).content)) }

        ensures archive { OnOk result (IfTold (M.state medium).content (λ c. IsArchive c.reads)) }
        ensures not_archive { IfErr result (λ e. e.0 ≡ ArchiveFault.NotArchive → IfTold (M.state medium).content (λ c. IsArchive c.reads → ⊥)) }
        ensures not_written { IfErr result (λ e. e.0 ≡ ArchiveFault.NotArchive → (M.state e.1).content ≡ told after_sync (M.state medium).content) }

        ensures run { IfOk result (λ s. IsRun (M.state medium) s.medium ⊥) }
        ensures run_err { IfErr result (λ e. IsRun (M.state medium) (M.state e.1) (e.0 ≡ ArchiveFault.MediumFault)) }
    {
        let (journal, entries) = Journal::open(alloc, medium)?;
        let Ok(listing) = Listing::of(alloc, entries) else {
            return Err((ArchiveFault::NoMemory, journal.into_medium()));
        };
        let opened = journal.faults();
        Ok(Shelf {
            journal,
            listing,
            down: false,
            opened,
            alloc,
        })
    }

    /// Admits the records of a data body for a device: those that it doesn't have yet, each once, are appended as one entry, by
    /// four calls of the medium. Where there are none it makes no call of the medium.
    pub fn admit(&mut self, imei: Imei, body: &[u8]) -> Result<Receipt, AdmitFault>
        requires few { length body.now ≤ 2 ^ 31 }
        requires accepted { (head : PacketHead) × IsBody head body.now }
        ensures leaves { Leaves self.old imei body.now result self.new }
        ensures receipt { IfOk result (λ r. r.count ≡ count_of body.now) }
    {
        if self.down {
            return Err(AdmitFault::Down {
                faults: self.journal.faults(),
            });
        }
        let known = self.listing.len();
        let receipt = self.listing.stage(imei, body)?;
        if self.listing.len() == known {
            return Ok(receipt);
        }
        let new = self.listing.behind(known);
        match keep(self.alloc, &mut self.journal, imei, new) {
            Ok(()) => Ok(receipt),
            Err(KeepFault::NoMemory) => {
                self.listing.truncate(known);
                Err(AdmitFault::NoMemory)
            }
            Err(KeepFault::MediumFault) => {
                self.listing.truncate(known);
                self.down = true;
                Err(AdmitFault::MediumFault {
                    faults: self.journal.faults(),
                })
            }
        }
    }

    /// The record list.
    pub fn list(&self) -> &[Stored]
        ensures value { result.now ≡ self.now.list }
        ensures once { IsOnce self.now.list }
    {
        self.listing.records()
    }

    /// The places of a device's records in the list, rising.
    pub fn device(&self, imei: Imei) -> Result<Vec<u64>, NoMemory>
        ensures { IfOk result (λ v. v.items ≡ places_of self.now.list imei) }
    {
        self.listing.device(imei)
    }

    /// How many devices have records.
    pub fn devices(&self) -> u64
        ensures { result ≡ devices_of self.now.list }
    {
        self.listing.devices()
    }

    /// How often its medium has failed.
    pub fn faults(&self) -> u64
        ensures { result ≡ self.now.medium.faults }
    {
        self.journal.faults()
    }

    /// Whether an earlier call returned MediumFault.
    pub fn is_down(&self) -> bool
        ensures value { result ≡ self.now.down }
        ensures durable { self.now.down ≡ false → IsDurable self.now }
        ensures fell { self.now.down ≡ true → IsAbove self.now.medium.faults self.now.opened }
    {
        self.down
    }

    /// The medium, also of a shelf that is down.
    pub fn into_medium(self) -> M
        ensures { M.state result ≡ self.medium }
    {
        let Shelf { journal, .. } = self;
        journal.into_medium()
    }

    /// Arms the shelf's bench.
    pub fn arm(&mut self, calls: u64, tear: Tear)
    where
        M: Bench,
        requires { self.old.medium.left ≡ unlimited }
        ensures armed { self.new ≡ record self.old { medium = record self.old.medium { left = after calls } } }
        ensures told { IsSome self.old.medium.content }
    {
        self.journal.arm(calls, tear);
    }

    /// The power comes back: the shelf's bench reads as one of the images that the power loss might have left, and the shelf is
    /// up with that image's record list. One that is up has it already; for one that is down the archive is read again, which
    /// takes memory. Out of memory leaves it down, with the power back: the call can be made once more.
    pub fn restart(&mut self) -> Result<(), NoMemory>
    where
        M: Bench,
        ensures restarted { OnOk result (IsRestarted self.old self.new) }
        ensures durable { OnOk result (IsDurable self.new) }
        ensures opened { OnOk result (self.new.opened ≡ self.new.medium.faults) }
        ensures up { self.old.down ≡ false → IsOk result }
        ensures err { OnErr result (self.new ≡ record self.old { medium = self.new.medium }) }

        // It keeps the entries that the power loss might have left, also where it fails.
        ensures keeps { EveryImage self.new.medium.content (KeepsEntries self.old.medium.content) }
        ensures told { IsSome self.old.medium.content × IsSome self.new.medium.content }
        ensures unlimited { self.new.medium.left ≡ unlimited }
        ensures later { self.old.medium.faults ≤ self.new.medium.faults }
        ensures ready { self.old.medium.ready ≤ self.new.medium.ready }
    {
        self.journal.restart();
        if self.down {
            return self.read_again();
        }
        self.opened = self.journal.faults();
        Ok(())
    }

    // Reads its archive again.
    fn read_again(&mut self) -> Result<(), NoMemory>
    where
        M: Bench,
        requires down { self.old.down ≡ true }
        requires told { IsSome self.old.medium.content }
        requires unlimited { self.old.medium.left ≡ unlimited }
        requires archive { IfTold self.old.medium.content (λ c. IsArchive c.reads) }
        ensures list { OnOk result (IfTold self.old.medium.content (λ c. self.new.list ≡ list_of (entries_of c.reads))) }
        ensures entries { OnOk result (entries_told self.new.medium.content ≡ entries_told self.old.medium.content) }
        ensures durable { OnOk result (IsDurable self.new) }
        ensures opened { OnOk result (self.new.opened ≡ self.new.medium.faults) }
        ensures err { OnErr result (self.new ≡ record self.old { medium = self.new.medium }) }
        ensures keeps { EveryImage self.new.medium.content (KeepsEntries self.old.medium.content) }
        ensures run { IsRun self.old.medium self.new.medium ⊥ }
    {
        let entries = match self.journal.reopen(self.alloc) {
            Ok(entries) => entries,
            Err(ArchiveFault::NoMemory) => return Err(NoMemory),
            Err(ArchiveFault::MediumFault) => unreachable!(),
            Err(ArchiveFault::NotArchive) => unreachable!(),
        };
        self.listing = Listing::of(self.alloc, entries)?;
        self.down = false;
        self.opened = self.journal.faults();
        Ok(())
    }
}

impl<M: Medium> Admit for Shelf<M> {
    ghost use Rattle.std.specs.Prelude.{None, refl};
    ghost use Rattle.shelf.specs.Calls.{no_mark};
    ghost use Rattle.shelf.specs.Shelf.{Leaves as ShelfLeaves};

    ghost leaves = { ShelfLeaves };

    // It tells none of its calls.
    ghost calls = { λ _. None };

    ghost mark = { λ _. no_mark };

    ghost tells = { λ _ _ _ _ _ _. record { same = refl; added = refl } };

    fn admit(&mut self, imei: Imei, body: &[u8]) -> Result<Receipt, AdmitFault> {
        Shelf::admit(self, imei, body)
    }
}
