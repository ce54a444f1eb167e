//! The values that every other crate speaks of: IMEIs, codecs, coordinates, records, lists of records, faults of bytes,
//! and the errors that calls share. Contracts see each as the value that it stands for: an IMEI as its number, a record as
//! a pair of codec and bytes, a list as a list.
#![tactic(auto)]

mod avl_record;
mod byte_list;
mod codec;
mod errors;
mod fault;
mod gps;
mod imei;
mod io;
mod nx_list;
mod order;
mod rec;
mod rec_list;
mod wide_list;
mod wide_rec;
mod width;

pub use avl_record::AvlRecord;
pub use byte_list::ByteList;
pub use codec::Codec;
pub use errors::{Failed, MediumFault, NoMemory};
pub use fault::{Fault, FaultKind};
pub use gps::Gps;
pub use imei::Imei;
pub use io::Io;
pub use nx_list::NxList;
pub use order::Order;
pub use rec::Rec;
pub use rec_list::RecList;
pub use wide_list::WideList;
pub use wide_rec::WideRec;
pub use width::Width;

#[cfg(test)]
mod tests;
