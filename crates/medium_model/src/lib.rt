//! The model of a medium that keeps bytes over a power loss: what contracts see of one, what a power loss may leave of it, and
//! how many calls pass before one fails. It has no medium of its own.
#![tactic(auto)]

mod bench;
mod gate;
mod medium;

pub use bench::{Bench, Tear};
pub use gate::{CLOSED, OPEN};
pub use medium::{MAX_PLACE, Medium, ReserveError};
