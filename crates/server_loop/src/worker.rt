use desk::Seat;
use medium_model::Medium;
use session_core::Served;

mod handing;
mod serving;

pub use serving::serve;

/// A worker: its door, its seat while no thread has it, and what it did.
#[derive(Drop)]
pub struct Worker<D, M: Medium> {
    door: D,
    seat: Option<Seat<M>>,
    served: Vec<Served>,
    failed: bool,
}
