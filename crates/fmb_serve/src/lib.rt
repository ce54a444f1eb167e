//! `serve`: an archive that a host opens is served at an address, by 1 to 64 workers. What is printed of it is a definition of bytes over
//! what the workers report and what the archive has then, and each status has its cause.
#![tactic(auto)]

mod doors_opened;
mod lines;
mod serving;
mod statuses;

pub use serving::run_serve;
