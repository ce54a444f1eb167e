//! The words that the program is started with: which command they name, and its arguments, by clap.
#![tactic(auto)]

mod commands;
mod drive_words;
mod fault;
mod file_word;
mod laws;
mod made_words;
mod number;
mod serve_words;
mod trial_words;
mod words;

pub use drive_words::DriveWords;
pub use fault::WordsFault;
pub use laws::{
    help_is_refused, no_file_is_refused, other_command_is_refused, other_drive_is_refused,
    plain_drive_is_read, plain_file_is_taken, plain_made_is_read, plain_serve_is_read,
    second_file_is_refused,
};
pub use made_words::MadeWords;
pub use serve_words::ServeWords;
pub use trial_words::TrialWords;
pub use words::{Words, read_words};

#[cfg(test)]
mod tests;
