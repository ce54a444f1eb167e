//! AVL records and data bodies of Codec 8, Codec 8 Extended and Codec 16 as code: a body judged to its first fault, whole or
//! byte by byte; its records and what each says, as slices of the body; records spelled from values, and bodies made of
//! records.
#![tactic(auto)]

mod elements;
mod in_record;
mod machine;
mod part_walk;
mod place;
mod reading;
mod record;
mod record_iter;
mod record_view;
mod scanning;

pub use elements::{Ios, Nxs};
pub use machine::RecordMachine;
pub use place::PacketPlace;
pub use reading::{records, view};
pub use record::is_record;
pub use record_iter::Records;
pub use record_layout::PacketHead;
pub use record_view::RecordView;
pub use record_writing::{Body, WriteFault, write_record};
pub use scanning::{Scan, read_packet, scan};

#[cfg(test)]
mod tests;
