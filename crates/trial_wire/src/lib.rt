//! The wire of a trial: a device's link whose far end is the server's session over its archive, as far as a line's limits let bytes
//! through.
#![tactic(auto)]

mod laws;
mod pieces;
mod wire;

pub use laws::{frames_are_read, rest_is_read};
pub use pieces::give;
pub use wire::{Wire, WireParts};
