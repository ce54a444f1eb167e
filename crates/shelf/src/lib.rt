//! A server's archive: each record of a device once, in a list beside the journal that keeps it over a power loss. Contracts
//! see the list and the medium.
#![tactic(auto)]

mod device;
mod devices;
mod digest;
mod keep;
mod listing;
mod receipt;
mod shelf;
mod stored;

pub use receipt::{Admit, AdmitFault, Receipt};
pub use shelf::Shelf;
pub use stored::Stored;
