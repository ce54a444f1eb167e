//! An archive of records in a file, entry after entry: an entry that was appended stays in every image that a power loss may
//! leave. Contracts see the entries and the medium, and no bytes of the file.
#![tactic(auto)]

mod body;
mod entry;
mod fault;
mod journal;
mod open;
mod walk;
mod write;

pub use body::write_body;
pub use entry::{Entry, EntryList};
pub use fault::ArchiveFault;
pub use journal::Journal;
