//! What each command does on a host: it opens a text, reads it whole and gives it back, prints lines, and ends with a status.
#![tactic(auto)]

mod fetching;
mod printing;
mod reading;
mod status;

pub use fetching::{Missing, fetch, give_up, miss};
pub use printing::{print, say};
pub use reading::{Unread, read_text};
pub use status::{
    DONE, HOST_FAULT, MEDIUM_FAULT, NO_MEMORY, REFUSED_MEDIUM, REFUSED_TEXT, REFUSED_WORDS,
    SINK_FAULT, SOURCE_FAULT,
};
