//! The lines of a text, as scripts and captures have them: they end with LF, one CR before it is dropped, and the last LF may be
//! missing. Lines are numbered from 1. An empty line, and one that begins with `#`, is skipped.
#![tactic(auto)]

mod content;
mod cutting;

pub use content::{ContentLine, ContentLines, LONGEST};
pub use cutting::{first_line, split_once};
