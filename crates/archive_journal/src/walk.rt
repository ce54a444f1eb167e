//! A file read whole, and walked from entry to entry.
ghost use Rattle.std.specs.Prelude.{◌≡◌, ◌<◌, ◌≤◌, ◌+◌, ◌++◌, ◌^◌, true, false, drop, length, slice_get, take, IfOk, IfSome, IfNone, OnOk, IsErrOf};
ghost use Rattle.medium_model.specs.State.{Counted, CountedMaybe, IfTold};
ghost use Rattle.archive_journal.specs.Body.{entry_in};
ghost use Rattle.archive_journal.specs.Entries.{size_at, body_at, is_entry, entries_of, magic};
ghost use Rattle.archive_journal.specs.Places.{StandIn};

use crate::body::{read_body, read_length};
use crate::entry::{Entry, EntryList};
use crate::fault::ArchiveFault;
use avl_values::NoMemory;
use medium_model::{MAX_PLACE, Medium, OPEN};
use std::alloc::Global;

// The entry whose gate comes first, and how many bytes gate and body have; None where it doesn't count.
fn front_entry(alloc: Global, bytes: &[u8]) -> Result<Option<(Entry, usize)>, NoMemory>
    ensures none { IfOk result (λ found. IfNone found (is_entry bytes.now ≡ false)) }
    ensures counts { IfOk result (λ found. IfSome found (λ f. is_entry bytes.now ≡ true)) }
    ensures entry { IfOk result (λ found. IfSome found (λ f. f.0 ≡ entry_in (body_at bytes.now))) }
    ensures size { IfOk result (λ found. IfSome found (λ f. f.1 ≡ size_at bytes.now)) }
{
    if bytes.len() < 6 {
        return Ok(None);
    }
    if bytes[0] != OPEN {
        return Ok(None);
    }
    let size = 5 + read_length(&bytes[1..]) as usize;
    if bytes.len() <= size {
        return Ok(None);
    }
    match read_body(alloc, &bytes[1..size])? {
        Some(entry) => Ok(Some((entry, size))),
        None => Ok(None),
    }
}

/// The entries of a file that begins with `FMBARCH1`, and the place of its last gate.
pub fn read_entries(alloc: Global, file: &[u8]) -> Result<(EntryList, usize), NoMemory>
    requires begins { take 8 file.now ≡ magic }
    requires long { 8 < length file.now }
    ensures stand { IfOk result (λ r. StandIn r.0 r.1 file.now) }
    ensures last { IfOk result (λ r. is_entry (drop r.1 file.now) ≡ false) }
{
    let mut entries = EntryList::new(alloc);
    let mut gate: usize = 8;
    'entries: loop {
        match front_entry(alloc, &file[gate..])? {
            Some((entry, size)) => {
                entries.push(entry)?;
                gate += size;
            }
            None => return Ok((entries, gate)),
        }
    }
}

/// The whole file, read piece by piece into this buffer.
pub fn read_file<M: Medium>(
    alloc: Global,
    medium: &mut M,
    piece: &mut [u8],
) -> Result<Vec<u8>, ArchiveFault>
    requires { 0 < length piece.old }
    ensures file { IfOk result (λ file. IfTold (M.state medium.old).content (λ c. file.items ≡ c.reads)) }
    ensures content { (M.state medium.new).content ≡ (M.state medium.old).content }
    ensures counted { CountedMaybe (M.state medium.old) (M.state medium.new) (IsErrOf result ArchiveFault.MediumFault) }
    ensures short { IfOk result (λ file. length file.items ≤ 2 ^ 62) }
    ensures no_other { IsErrOf result ArchiveFault.NotArchive → ⊥ }
{
    let mut file = Vec::new(alloc);
    'pieces: while file.len() as u64 <= MAX_PLACE {
        let count = medium.read(file.len() as u64, piece)?;
        if count == 0 {
            return Ok(file);
        }
        if file.extend_from_slice(&piece[..count]).is_err() {
            return Err(ArchiveFault::NoMemory);
        }
    }
    Err(ArchiveFault::NoMemory)
}
