//! New records kept in the journal.
ghost use Rattle.std.specs.Prelude.{◌≡◌, ◌<◌, ◌≤◌, length, drop, IfOk, OnOk, OnErr, IsErrOf};
ghost use Rattle.medium_model.specs.State.{Counted};
ghost use Rattle.archive_journal.specs.Journal.{EachHolds, IsDurable, IsEither, entries_told, with_entry};
ghost use Rattle.shelf.specs.Kept.{keep_calls};
ghost use Rattle.shelf.specs.Shelf.{MakesEntry, recs_of};

use crate::stored::Stored;
use archive_journal::{Journal, write_body};
use avl_values::{Imei, NoMemory, WideRec};
use medium_model::{Medium, ReserveError};
use std::alloc::Global;

/// Why nothing was kept.
#[derive(Clone, Copy, Debug, PartialEq, Eq)]
pub enum KeepFault {
    /// A growth of memory was refused. Nothing has changed, but for the room in the journal's buffer.
    NoMemory,
    /// The medium failed in this call.
    MediumFault,
}

impl From<NoMemory> for KeepFault {
    ghost use Rattle.shelf.specs.declared.keep.KeepFault.TheVariants as fault;

    ghost from_gives = { λ _ e. e ≡ fault.NoMemory };

    fn from(_: NoMemory) -> Self {
        KeepFault::NoMemory
    }
}

// The records of a list once more.
fn copies(alloc: Global, list: &[Stored]) -> Result<Vec<WideRec>, NoMemory>
    ensures { IfOk result (λ v. v.items ≡ recs_of list.now) }
{
    let mut records = Vec::with_capacity(alloc, list.len())?;
    for stored in list {
        records.push(stored.rec().try_clone()?)?;
    }
    Ok(records)
}

/// Appends an entry of new records, by four calls of the medium.
pub fn keep<M: Medium>(
    alloc: Global,
    journal: &mut Journal<M>,
    imei: Imei,
    new: &[Stored],
) -> Result<(), KeepFault>
    requires entry { MakesEntry (recs_of new.now) }
    requires durable { IsDurable journal.old }

    ensures images { EachHolds journal.new.medium (IsEither (entries_told journal.old.medium.content) (with_entry (record { imei = imei; records = recs_of new.now }) (entries_told journal.old.medium.content))) }
    ensures entries { OnOk result (entries_told journal.new.medium.content ≡ with_entry (record { imei = imei; records = recs_of new.now }) (entries_told journal.old.medium.content)) }
    ensures durable { OnOk result (IsDurable journal.new) }
    ensures unreserved { IsErrOf result KeepFault.NoMemory → journal.new ≡ record journal.old { buffer = journal.new.buffer } }
    ensures counted { Counted (keep_calls result) journal.old.medium journal.new.medium (IsErrOf result KeepFault.MediumFault) }
{
    let codec = new[0].rec().codec();
    let records = copies(alloc, new)?;
    let body = write_body(alloc, imei, codec, &records)?;
    match journal.room(body.len() as u32) {
        Ok(()) => {}
        Err(ReserveError::NoMemory) => return Err(KeepFault::NoMemory),
        Err(ReserveError::Failed) => return Err(KeepFault::MediumFault),
    }
    match journal.append(&body) {
        Ok(_) => Ok(()),
        Err(_) => Err(KeepFault::MediumFault),
    }
}
