ghost use Rattle.std.specs.Prelude.{◌≡◌};
ghost use Rattle.archive_journal.specs.declared.fault.ArchiveFault.TheVariants as fault;

use avl_values::{Failed, NoMemory};
use std::alloc::AllocError;

/// Why an archive isn't opened. The medium is handed back.
#[derive(Clone, Copy, Debug, PartialEq, Eq)]
pub enum ArchiveFault {
    /// The medium failed in this call.
    MediumFault,
    /// It has more than nine bytes, and the first eight aren't `FMBARCH1`. Nothing was written.
    NotArchive,
    /// A growth of memory was refused.
    NoMemory,
}

impl From<Failed> for ArchiveFault {
    ghost from_gives = { λ _ e. e ≡ fault.MediumFault };

    fn from(_: Failed) -> Self {
        ArchiveFault::MediumFault
    }
}

impl From<NoMemory> for ArchiveFault {
    ghost from_gives = { λ _ e. e ≡ fault.NoMemory };

    fn from(_: NoMemory) -> Self {
        ArchiveFault::NoMemory
    }
}

impl From<AllocError> for ArchiveFault {
    ghost from_gives = { λ _ e. e ≡ fault.NoMemory };

    fn from(_: AllocError) -> Self {
        ArchiveFault::NoMemory
    }
}
