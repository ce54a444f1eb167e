ghost use Rattle.std.specs.Prelude.{◌≡◌, ◌⊎◌, ◌↔◌, ◌+◌, ◌<◌, ◌≤◌, ◌^◌, true, false, length, IfOk, IfErr, OnOk, OnErr, IsOk, IsErr, IsErrOf, IsSome, IsTrue};
ghost use Rattle.avl_values.specs.Causes.{Rose};
ghost use Rattle.medium_model.specs.CallsLeft.{MayFail, after, unlimited};
ghost use Rattle.medium_model.specs.Content.{after_sync};
ghost use Rattle.medium_model.specs.State.{Counted, IfTold, IsRestarted, IsRun, told};
ghost use Rattle.medium_model.specs.PowerLoss.{EveryImage};
ghost use Rattle.archive_journal.specs.Body.{entry_in, is_body};
ghost use Rattle.archive_journal.specs.Entries.{IsArchive, entries_of};
ghost use Rattle.archive_journal.specs.Journal.{EachHolds, HasRoom, IsDurable, IsEither, KeepsEntries, after_body, entries_told, with_entry};

use crate::entry::EntryList;
use crate::fault::ArchiveFault;
use crate::open::open_archive;
use crate::write::{Tail, write_entry};
use avl_values::MediumFault;
use medium_model::{Bench, MAX_PLACE, Medium, ReserveError, Tear};
use std::alloc::Global;
use std::marker::Model;

/// An archive on a medium, entry after entry (this project's own).
///
/// An entry that was appended with Ok stays in every image that a power loss may leave. After an append that answered
/// MediumFault the journal is down: take the medium, and open it again.
#[derive(Drop)]
pub struct Journal<M: Medium> {
    medium: M,
    tail: Tail,
    reserved: u64,
    buffer: Vec<u8>,
    down: bool,
}

impl<M: Medium> Model for Journal<M> {
    ghost use Rattle.std.specs.Vec.{vec_capacity};
    ghost use Rattle.archive_journal.specs.Journal.{JournalView};
    ghost use Rattle.archive_journal.specs.Places.{IsJournal};

    ghost Value = { JournalView };

    ghost view = { λ j. record { medium = M.state j.medium; gate = j.tail.gate; bodies = j.tail.bodies; reserved = j.reserved; buffer = vec_capacity j.buffer; down = j.down } };

    ghost invariant = { λ j. IsJournal (record { medium = M.state j.medium; gate = j.tail.gate; bodies = j.tail.bodies; reserved = j.reserved; buffer = vec_capacity j.buffer; down = j.down }) };
}

impl<M: Medium> Journal<M> {
    /// Opens a medium that a power loss may have left, and gives its entries. A file of at most nine bytes that is no archive
    /// becomes an empty one, and a last gate that is open is closed.
    pub fn open(alloc: Global, medium: M) -> Result<(Journal<M>, EntryList), (ArchiveFault, M)>
        ensures durable { IfOk result (λ r. IsDurable r.0) }
        ensures entries { IfOk result (λ r. IfTold (M.state medium).content (λ c. r.1 ≡ entries_of c.reads)) }
        ensures read { IfOk result (λ r. IfTold r.0.medium.content (λ c. r.1 ≡ entries_of c.reads)) }
        ensures bodies { IfOk result (λ r. r.0.bodies ≡ length r.1) }

        // It keeps the entries that a power loss might have left, also where it fails.
        ensures keeps { IfOk result (λ r. EveryImage r.0.medium.content (KeepsEntries (M.state medium).content)) }
        ensures keeps_err { IfErr result (λ e. EveryImage (M.state e.1).content (KeepsEntries (M.state medium).content)) }

        ensures archive { OnOk result (IfTold (M.state medium).content (λ c. IsArchive c.reads)) }
        ensures not_archive { IfErr result (λ e. e.0 ≡ ArchiveFault.NotArchive → IfTold (M.state medium).content (λ c. IsArchive c.reads → ⊥)) }
        ensures not_written { IfErr result (λ e. e.0 ≡ ArchiveFault.NotArchive → (M.state e.1).content ≡ told after_sync (M.state medium).content) }

        ensures run { IfOk result (λ r. IsRun (M.state medium) r.0.medium ⊥) }
        ensures run_err { IfErr result (λ e. IsRun (M.state medium) (M.state e.1) (e.0 ≡ ArchiveFault.MediumFault)) }
    {
        let mut medium = medium;
        match open_archive(alloc, &mut medium) {
            Ok((tail, entries)) => {
                let journal = Journal {
                    medium,
                    tail,
                    reserved: 0,
                    buffer: Vec::new(alloc),
                    down: false,
                };
                Ok((journal, entries))
            }
            Err(fault) => Err((fault, medium)),
        }
    }

    /// Makes it ready for an append of a body of N bytes. NoMemory leaves everything as it was, but for the room in its
    /// buffer; Failed leaves the entries as they are, and comes only where the count of faults rose.
    pub fn room(&mut self, bytes: u32) -> Result<(), ReserveError>
        ensures room { OnOk result (HasRoom self.new bytes) }
        ensures same { self.new ≡ record self.old { medium = self.new.medium; reserved = self.new.reserved; buffer = self.new.buffer } }
        ensures content { self.new.medium.content ≡ self.old.medium.content }
        ensures left { self.new.medium.left ≡ self.old.medium.left }
        ensures failed { IsErrOf result ReserveError.Failed → MayFail self.old.medium.left }
        ensures cause { IsErrOf result ReserveError.Failed → Rose self.old.medium.faults self.new.medium.faults }
        ensures later { self.old.medium.faults ≤ self.new.medium.faults }
        ensures ready { self.old.medium.ready ≤ self.new.medium.ready }
        ensures unreserved { IsErrOf result ReserveError.NoMemory → self.new ≡ record self.old { buffer = self.new.buffer } }
    {
        let place = self.tail.gate + bytes as u64 + 2;
        if place > MAX_PLACE {
            return Err(ReserveError::NoMemory);
        }
        self.buffer.clear();
        if self.buffer.reserve(bytes as usize + 1).is_err() {
            return Err(ReserveError::NoMemory);
        }
        self.medium.reserve(place)?;
        self.reserved = place;
        Ok(())
    }

    /// Whether it is ready for an append of a body of N bytes.
    pub fn has_room(&self, bytes: u32) -> bool
        ensures { IsTrue result ↔ HasRoom self.now bytes }
    {
        self.tail.gate + bytes as u64 + 2 <= self.reserved
            && bytes as usize + 1 <= self.buffer.capacity()
    }

    /// Appends an entry by four calls of the medium, and gives its number, counted from 0. It takes no memory.
    pub fn append(&mut self, body: &[u8]) -> Result<u64, MediumFault>
        requires up { self.old.down ≡ false }
        requires body { is_body body.now ≡ true }
        requires room { HasRoom self.old (length body.now) }

        ensures number { IfOk result (λ n. n ≡ self.old.bodies) }
        ensures appended { OnOk result (self.new ≡ record (after_body (length body.now) self.old) { medium = self.new.medium; buffer = self.new.buffer }) }
        ensures entries { OnOk result (entries_told self.new.medium.content ≡ with_entry (entry_in body.now) (entries_told self.old.medium.content)) }
        ensures durable { OnOk result (IsDurable self.new) }

        // At every exit, and so at each moment of the call, a power loss leaves the entries before or those after.
        ensures images { EachHolds self.new.medium (IsEither (entries_told self.old.medium.content) (with_entry (entry_in body.now) (entries_told self.old.medium.content))) }

        ensures failed { OnErr result (self.new ≡ record self.old { medium = self.new.medium; buffer = self.new.buffer; down = true }) }
        ensures counted { Counted 4 self.old.medium self.new.medium (IsErr result) }
    {
        let number = self.tail.bodies;
        match write_entry(&mut self.medium, self.tail, body, &mut self.buffer) {
            Ok(tail) => {
                self.tail = tail;
                Ok(number)
            }
            Err(_) => {
                self.down = true;
                Err(MediumFault)
            }
        }
    }

    /// Whether an append returned MediumFault.
    pub fn is_down(&self) -> bool
        ensures value { result ≡ self.now.down }
        ensures durable { self.now.down ≡ false → IsDurable self.now }
    {
        self.down
    }

    /// The number of entries.
    pub fn bodies(&self) -> u64
        ensures { result ≡ self.now.bodies }
    {
        self.tail.bodies
    }

    /// How often its medium has failed.
    pub fn faults(&self) -> u64
        ensures { result ≡ self.now.medium.faults }
    {
        self.medium.faults()
    }

    /// Reads its medium again, as `open` does, and gives its entries. It is up then, and down where that failed.
    pub fn reopen(&mut self, alloc: Global) -> Result<EntryList, ArchiveFault>
        ensures durable { OnOk result (IsDurable self.new) }
        ensures entries { IfOk result (λ es. IfTold self.old.medium.content (λ c. es ≡ entries_of c.reads)) }
        ensures read { IfOk result (λ es. IfTold self.new.medium.content (λ c. es ≡ entries_of c.reads)) }
        ensures bodies { IfOk result (λ es. self.new.bodies ≡ length es) }

        // It keeps the entries that a power loss might have left, also where it fails.
        ensures keeps { EveryImage self.new.medium.content (KeepsEntries self.old.medium.content) }

        ensures archive { OnOk result (IfTold self.old.medium.content (λ c. IsArchive c.reads)) }
        ensures not_archive { IsErrOf result ArchiveFault.NotArchive → IfTold self.old.medium.content (λ c. IsArchive c.reads → ⊥) }
        ensures not_written { IsErrOf result ArchiveFault.NotArchive → self.new.medium.content ≡ told after_sync self.old.medium.content }

        ensures down { OnErr result (self.new.down ≡ true) }
        ensures run { IsRun self.old.medium self.new.medium (IsErrOf result ArchiveFault.MediumFault) }
    {
        self.down = true;
        let (tail, entries) = open_archive(alloc, &mut self.medium)?;
        self.tail = tail;
        self.down = false;
        Ok(entries)
    }

    /// The medium, also of a journal that is down.
    pub fn into_medium(self) -> M
        ensures { M.state result ≡ self.medium }
    {
        let Journal { medium, .. } = self;
        medium
    }

    /// Arms the journal's bench.
    pub fn arm(&mut self, calls: u64, tear: Tear)
    where
        M: Bench,
        requires { self.old.medium.left ≡ unlimited }
        ensures armed { self.new ≡ record self.old { medium = record self.old.medium { left = after calls } } }
        ensures told { IsSome self.old.medium.content }
    {
        self.medium.arm(calls, tear);
    }

    /// The power comes back: its bench reads as one of the images that the power loss might have left, each of which is an
    /// archive. A journal that is up keeps its entries; one that is down stays down until `reopen`.
    pub fn restart(&mut self)
    where
        M: Bench,
        ensures same { self.new ≡ record self.old { medium = self.new.medium } }
        ensures image { IsRestarted self.old.medium.content self.new.medium.content }
        ensures archive { IfTold self.new.medium.content (λ c. IsArchive c.reads) }
        ensures durable { self.old.down ≡ false → IsDurable self.new }
        ensures entries { self.old.down ≡ false → entries_told self.new.medium.content ≡ entries_told self.old.medium.content }
        ensures told { IsSome self.old.medium.content }
        ensures unlimited { self.new.medium.left ≡ unlimited }
        ensures ready { self.old.medium.ready ≤ self.new.medium.ready }
        ensures faults { self.new.medium.faults ≡ self.old.medium.faults }
    {
        self.medium.restart();
    }
}
