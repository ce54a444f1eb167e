//! A medium taken over as an archive.
ghost use Rattle.std.specs.Prelude.{◌≡◌, ◌≢◌, ◌+◌, ◌<◌, ◌≤◌, ◌^◌, ◌⊎◌, ◌↔◌, [], true, false, Some, take, drop, length, get_or, IfOk, OnOk, OnErr, IsErr, IsErrOf, IsTrue};
ghost use Rattle.medium_model.specs.Content.{after_sync, settled};
ghost use Rattle.medium_model.specs.State.{IfTold, IsRun, told};
ghost use Rattle.medium_model.specs.PowerLoss.{IsImage, EveryImage};
ghost use Rattle.archive_journal.specs.Entries.{IsArchive, entries_of, is_entry, magic};
ghost use Rattle.archive_journal.specs.Journal.{HoldsWith, IsTold, KeepsEntries, entries_told};
ghost use Rattle.archive_journal.specs.Places.{IsClosed, IsSmall, StandIn};
ghost use Rattle.archive_journal.specs.Found.{IsDurableFile, IsFound};

use crate::entry::EntryList;
use crate::fault::ArchiveFault;
use crate::walk::{read_entries, read_file};
use crate::write::{Tail, close_gate, write_empty};
use avl_values::Failed;
use medium_model::{Medium, OPEN, ReserveError};
use std::alloc::Global;

// How many bytes of the file one read asks for.
const PIECE: usize = 4096;

// Makes the medium ready for writes up to a place.
fn make_ready<M: Medium>(medium: &mut M, to: u64) -> Result<(), ArchiveFault>
    requires { to ≤ 2 ^ 62 }
    ensures enough { OnOk result (to ≤ (M.state medium.new).ready) }
    ensures content { (M.state medium.new).content ≡ (M.state medium.old).content }
    ensures no_other { IsErrOf result ArchiveFault.NotArchive → ⊥ }
    ensures run { IsRun (M.state medium.old) (M.state medium.new) (IsErrOf result ArchiveFault.MediumFault) }
{
    match medium.reserve(to) {
        Ok(()) => Ok(()),
        Err(ReserveError::Failed) => Err(ArchiveFault::MediumFault),
        Err(ReserveError::NoMemory) => Err(ArchiveFault::NoMemory),
    }
}

// Writes an empty archive over at most nine bytes.
fn start_anew<M: Medium>(alloc: Global, medium: &mut M) -> Result<(Tail, EntryList), ArchiveFault>
    requires small { IfTold (M.state medium.old).content IsSmall }
    ensures images { EveryImage (M.state medium.new).content (HoldsWith (IsTold (Some []))) }
    ensures tail { IfOk result (λ r. r.0 ≡ record { gate = 8; bodies = 0 }) }
    ensures entries { IfOk result (λ r. r.1 ≡ []) }
    ensures read { IfOk result (λ r. IfTold (M.state medium.new).content (λ c. r.1 ≡ entries_of c.reads)) }
    ensures closed { OnOk result (IfTold (M.state medium.new).content (IsClosed 8 0)) }
    ensures no_other { IsErrOf result ArchiveFault.NotArchive → ⊥ }
    ensures run { IsRun (M.state medium.old) (M.state medium.new) (IsErrOf result ArchiveFault.MediumFault) }
{
    make_ready(medium, 9)?;
    write_empty(medium)?;
    let tail = Tail { gate: 8, bodies: 0 };
    Ok((tail, EntryList::new(alloc)))
}

// Closes the last gate of a file where it is open.
fn close_last<M: Medium>(
    medium: &mut M,
    file: &[u8],
    entries: &EntryList,
    tail: Tail,
) -> Result<(), ArchiveFault>
    requires few { length file.now ≤ 2 ^ 62 }
    requires durable { IfTold (M.state medium.old).content (IsDurableFile file.now) }
    requires stand { StandIn entries.now tail.gate file.now }
    requires last { is_entry (drop tail.gate file.now) ≡ false }
    requires count { tail.bodies ≡ length entries.now }
    ensures images { EveryImage (M.state medium.new).content (HoldsWith (IsTold (entries_told (M.state medium.old).content))) }
    ensures same { OnOk result (entries_told (M.state medium.new).content ≡ entries_told (M.state medium.old).content) }
    ensures closed { OnOk result (IfTold (M.state medium.new).content (IsClosed tail.gate tail.bodies)) }
    ensures no_other { IsErrOf result ArchiveFault.NotArchive → ⊥ }
    ensures run { IsRun (M.state medium.old) (M.state medium.new) (IsErrOf result ArchiveFault.MediumFault) }
{
    if file[tail.gate as usize] != OPEN {
        return Ok(());
    }
    make_ready(medium, tail.gate + 1)?;
    close_gate(medium, tail)?;
    Ok(())
}

// Takes over a file that begins as an archive.
fn take_over<M: Medium>(
    alloc: Global,
    medium: &mut M,
    file: &[u8],
) -> Result<(Tail, EntryList), ArchiveFault>
    requires begins { take 8 file.now ≡ magic }
    requires long { 8 < length file.now }
    requires few { length file.now ≤ 2 ^ 62 }
    requires durable { IfTold (M.state medium.old).content (IsDurableFile file.now) }
    ensures images { EveryImage (M.state medium.new).content (HoldsWith (IsTold (entries_told (M.state medium.old).content))) }
    ensures entries { IfOk result (λ r. r.1 ≡ entries_of file.now) }
    ensures read { IfOk result (λ r. IfTold (M.state medium.new).content (λ c. r.1 ≡ entries_of c.reads)) }
    ensures found { IfOk result (λ r. IsFound r.0.gate r.0.bodies r.1) }
    ensures closed { IfOk result (λ r. IfTold (M.state medium.new).content (IsClosed r.0.gate r.0.bodies)) }
    ensures no_other { IsErrOf result ArchiveFault.NotArchive → ⊥ }
    ensures run { IsRun (M.state medium.old) (M.state medium.new) (IsErrOf result ArchiveFault.MediumFault) }
{
    let (entries, gate) = read_entries(alloc, file)?;
    let tail = Tail {
        gate: gate as u64,
        bodies: entries.len() as u64,
    };
    close_last(medium, file, &entries, tail)?;
    Ok((tail, entries))
}

// Whether a file begins with `FMBARCH1`.
fn begins(file: &[u8]) -> bool
    ensures { IsTrue result ↔ (take 8 file.now ≡ magic) }
{
    file.starts_with(b"FMBARCH1")
}

// Whether a file becomes an empty archive: it has fewer than nine bytes, or nine of which the first eight aren't `FMBARCH1`.
fn is_made_anew(file: &[u8]) -> bool
    ensures yes_few { IsTrue result → length file.now ≤ 9 }
    ensures other_long { result ≡ false → 8 < length file.now }
    ensures other_begins { result ≡ false → (take 8 file.now ≡ magic) ⊎ (9 < length file.now) }
{
    file.len() < 9 || (file.len() == 9 && !begins(file))
}

/// Syncs and reads the file, makes it an empty archive where it has at most nine bytes and is none, and closes a last gate
/// that is open. It gives where the archive ends, and its entries.
pub fn open_archive<M: Medium>(
    alloc: Global,
    medium: &mut M,
) -> Result<(Tail, EntryList), ArchiveFault>
    ensures closed { IfOk result (λ r. IfTold (M.state medium.new).content (IsClosed r.0.gate r.0.bodies)) }
    ensures found { IfOk result (λ r. IsFound r.0.gate r.0.bodies r.1) }
    ensures entries { IfOk result (λ r. IfTold (M.state medium.old).content (λ c. r.1 ≡ entries_of c.reads)) }
    ensures read { IfOk result (λ r. IfTold (M.state medium.new).content (λ c. r.1 ≡ entries_of c.reads)) }
    ensures archive { OnOk result (IfTold (M.state medium.old).content (λ c. IsArchive c.reads)) }
    ensures keeps { EveryImage (M.state medium.new).content (KeepsEntries (M.state medium.old).content) }
    ensures archives { EveryImage (M.state medium.old).content IsArchive → EveryImage (M.state medium.new).content IsArchive }
    ensures not_archive { IsErrOf result ArchiveFault.NotArchive → IfTold (M.state medium.old).content (λ c. IsArchive c.reads → ⊥) }
    ensures not_written { IsErrOf result ArchiveFault.NotArchive → (M.state medium.new).content ≡ told after_sync (M.state medium.old).content }
    ensures run { IsRun (M.state medium.old) (M.state medium.new) (IsErrOf result ArchiveFault.MediumFault) }
{
    medium.sync()?;
    let mut piece = new_piece(alloc)?;
    let file = read_file(alloc, medium, piece.as_mut_slice())?;
    if is_made_anew(&file) {
        return start_anew(alloc, medium);
    }
    if !begins(&file) {
        return Err(ArchiveFault::NotArchive);
    }
    take_over(alloc, medium, &file)
}

// A buffer for a piece of the file.
fn new_piece(alloc: Global) -> Result<Vec<u8>, ArchiveFault>
    ensures some { IfOk result (λ piece. 0 < length piece.items) }
    ensures no_memory { OnErr result (IsErrOf result ArchiveFault.NoMemory) }
{
    let mut piece = Vec::with_capacity(alloc, PIECE)?;
    piece.resize(PIECE, 0)?;
    Ok(piece)
}
