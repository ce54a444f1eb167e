ghost use Rattle.std.specs.Prelude.{◌≡◌, ◌⊎◌, ◌+◌, ◌-◌, ◌<◌, ◌≤◌, ◌^◌, true, false, min, length, take, drop, IfOk, OnOk, OnErr, IsErr, IsErrOf, IsSome};
ghost use Rattle.avl_values.specs.Causes.{Rose};
ghost use Rattle.medium_model.specs.CallsLeft.{MayFail};
ghost use Rattle.medium_model.specs.Content.{after_write, after_sync};
ghost use Rattle.medium_model.specs.PowerLoss.{IsImage};
ghost use Rattle.medium.specs.File.{file_state};
ghost use Rattle.medium_model.specs.State.{Counted, IfTold, TornWrite, told};

use crate::open_file::open_settled;
use avl_values::Failed;
use medium_model::{MAX_PLACE, Medium, ReserveError};
use std::io::ErrorKind;
use std::marker::Model;
use std::os::unix::fs::FileExt;
use std::{fs, io};

/// A medium over a file of the operating system. It keeps a count of its failures, and tells nothing of its content: that a
/// real file behaves as a medium is not proved.
///
/// After a `sync` that failed each further call fails, since the system may have dropped what was written. `reserve` takes no
/// space on the disk: a full disk shows as a failed write.
#[derive(Drop)]
pub struct FileMedium {
    file: fs::File,
    ready: u64,
    faults: u64,
    broken: bool,
}

impl Model for FileMedium {
    ghost use Rattle.std.specs.Prelude.{◌≤◌, ◌^◌};
    ghost use Rattle.medium.specs.File.{FileView};

    ghost Value = { FileView };

    ghost view = { λ f. record { ready = f.ready; faults = f.faults; broken = f.broken } };

    ghost invariant = { λ f. f.ready ≤ 2 ^ 62 };
}

impl FileMedium {
    /// Opens the file at a path, and makes an empty one where there is none. It is settled before anything is read: synced, and
    /// what the system's cache holds of it dropped, since a sync that failed in an earlier process may have left there what the
    /// disk hasn't. The folder is synced too, so that the file's name stays.
    ///
    /// It fails where the path names no regular file, as a folder, a device or a link, or where another handle, in this process
    /// or in another one, holds the file's lock. This handle holds it until it is let go.
    pub fn open(rt: &HostRuntime, path: &str) -> io::Result<FileMedium>
        ensures { IfOk result (λ m. m ≡ record { ready = 0; faults = 0; broken = false }) }
    {
        let file = open_settled(rt, path)?;
        Ok(FileMedium {
            file,
            ready: 0,
            faults: 0,
            broken: false,
        })
    }

    // Counts a failure.
    fn fail(&mut self) -> Failed
        ensures rest { self.new ≡ record self.old { faults = self.new.faults } }
        ensures later { self.old.faults ≤ self.new.faults }
        ensures rose { Rose self.old.faults self.new.faults }
    {
        self.faults = self.faults.saturating_add(1);
        Failed
    }
}

// Reads until the slice is full or the file ends. A call that a signal interrupted is made again.
fn read_full(file: &fs::File, at: u64, into: &mut [u8]) -> io::Result<usize>
    ensures { IfOk result (λ n. n ≤ length into.old) }
{
    let mut done = 0;
    for _call in 0..u64::MAX {
        if done >= into.len() {
            return Ok(done);
        }
        match file.read_at(&mut into[done..], at.saturating_add(done as u64)) {
            Ok(0) => return Ok(done),
            Ok(count) => done += count,
            Err(error) if error.kind() == ErrorKind::Interrupted => {}
            Err(error) => return Err(error),
        }
    }
    Err(ErrorKind::Interrupted.into())
}

impl Medium for FileMedium {
    ghost state = { file_state };

    fn faults(&self) -> u64 {
        self.faults
    }

    fn reserve(&mut self, to: u64) -> Result<(), ReserveError>
        ensures enough { OnOk result (to ≤ self.new.ready) }
        ensures above { 2 ^ 62 < to → IsErrOf result ReserveError.Failed }
        ensures failed { IsErrOf result ReserveError.Failed → (2 ^ 62 < to) ⊎ MayFail (file_state self.old).left }
        ensures cause { IsErrOf result ReserveError.Failed → Rose self.old.faults self.new.faults }
        ensures later { self.old.faults ≤ self.new.faults }
        ensures ready { self.old.ready ≤ self.new.ready }
        ensures most { self.new.ready ≤ 2 ^ 62 }
        ensures content { (file_state self.new).content ≡ (file_state self.old).content }
        ensures left { (file_state self.new).left ≡ (file_state self.old).left }
        ensures unreserved { IsErrOf result ReserveError.NoMemory → file_state self.new ≡ file_state self.old }

        ensures broken { self.old.broken ≡ true → IsErrOf result ReserveError.Failed }
        ensures stays_broken { self.new.broken ≡ self.old.broken }
    {
        if self.broken || to > MAX_PLACE {
            self.faults = self.faults.saturating_add(1);
            return Err(ReserveError::Failed);
        }
        self.ready = self.ready.max(to);
        Ok(())
    }

    fn len(&mut self) -> Result<u64, Failed>
        ensures len { IfOk result (λ n. IfTold (file_state self.old).content (λ c. n ≡ length c.reads)) }
        ensures content { (file_state self.new).content ≡ (file_state self.old).content }
        ensures counted { Counted 1 (file_state self.old) (file_state self.new) (IsErr result) }

        ensures broken { self.old.broken ≡ true → IsErr result }
        ensures stays_broken { self.new.broken ≡ self.old.broken }
    {
        if self.broken {
            return Err(self.fail());
        }
        match self.file.metadata() {
            Ok(metadata) => Ok(metadata.len()),
            Err(_) => Err(self.fail()),
        }
    }

    fn read(&mut self, at: u64, into: &mut [u8]) -> Result<usize, Failed>
        ensures bound { IfOk result (λ n. n ≤ length into.new) }
        ensures count { IfOk result (λ n. IfTold (file_state self.old).content (λ c. n ≡ min (length into.old) (length c.reads - at))) }
        ensures bytes { IfOk result (λ n. IfTold (file_state self.old).content (λ c. take n into.new ≡ take n (drop at c.reads))) }
        ensures content { (file_state self.new).content ≡ (file_state self.old).content }
        ensures counted { Counted 1 (file_state self.old) (file_state self.new) (IsErr result) }

        ensures broken { self.old.broken ≡ true → IsErr result }
        ensures stays_broken { self.new.broken ≡ self.old.broken }
    {
        if self.broken {
            return Err(self.fail());
        }
        match read_full(&self.file, at, into) {
            Ok(count) => Ok(count),
            Err(_) => Err(self.fail()),
        }
    }

    fn write(&mut self, at: u64, from: &[u8]) -> Result<(), Failed>
        requires some { 0 < length from.now }
        requires ready { at + length from.now ≤ self.old.ready }
        ensures written { OnOk result ((file_state self.new).content ≡ told (after_write at from.now) (file_state self.old).content) }
        ensures torn { OnErr result (TornWrite at (length from.now) (file_state self.old).content (file_state self.new).content) }
        ensures counted { Counted 1 (file_state self.old) (file_state self.new) (IsErr result) }

        ensures broken { self.old.broken ≡ true → IsErr result }
        ensures stays_broken { self.new.broken ≡ self.old.broken }
    {
        if self.broken {
            return Err(self.fail());
        }
        match self.file.write_all_at(from, at) {
            Ok(()) => Ok(()),
            Err(_) => Err(self.fail()),
        }
    }

    fn sync(&mut self) -> Result<(), Failed>
        ensures durable { OnOk result ((file_state self.new).content ≡ told after_sync (file_state self.old).content) }
        ensures was_image { OnOk result (IfTold (file_state self.old).content (λ c. IsImage c c.reads)) }
        ensures unchanged { OnErr result ((file_state self.new).content ≡ (file_state self.old).content) }
        ensures counted { Counted 1 (file_state self.old) (file_state self.new) (IsErr result) }

        ensures broken { self.old.broken ≡ true → IsErr result }
        ensures breaks { OnErr result (self.new.broken ≡ true) }
        ensures passes { OnOk result (self.new.broken ≡ false) }
    {
        if self.broken {
            return Err(self.fail());
        }
        match self.file.sync_data() {
            Ok(()) => Ok(()),
            Err(_) => {
                self.broken = true;
                Err(self.fail())
            }
        }
    }
}
