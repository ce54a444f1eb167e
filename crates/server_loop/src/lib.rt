//! A server's loop: its connections from their doors to their ends, one worker for each door, and all packets on one archive.
#![tactic(auto)]

mod report;
mod worker;
mod working;

pub use report::{ServeReport, ServedList, WorkerList, WorkerReport};
pub use worker::serve;
pub use working::work;
