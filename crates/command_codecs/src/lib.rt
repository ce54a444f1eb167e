//! Commands and responses of Codecs 12 to 15 as code: a body judged to its first fault, whole or byte by byte, whether a value
//! may pass a way, and a command written as bytes.
#![tactic(auto)]

mod command;
mod cursor;
mod hearing;
mod machine;
mod place;
mod reading;
mod row;
mod scanning;
mod verdict;
mod writing;

pub use command::{Command, well_formed};
pub use command_layout::Way;
pub use machine::CommandMachine;
pub use place::CommandPlace;
pub use scanning::{read_command, scan_command};
pub use verdict::CommandScan;
pub use writing::write_command;

#[cfg(test)]
mod tests;
