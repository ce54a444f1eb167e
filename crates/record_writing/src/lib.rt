//! Records and data bodies as bytes: a record is spelled in a codec or refused for the first of three causes, and a tracker's
//! data body is made of records, one after the other.
#![tactic(auto)]

mod body;
mod codec;
mod length;
mod put;
mod writing;

pub use body::Body;
pub use length::shortest_length;
pub use writing::{WriteFault, write_record};

#[cfg(test)]
mod tests;
