//! Media that keep bytes over a power loss: what contracts see of one, what a power loss may leave of it, a medium and a
//! bench in memory, and an adapter over a file.
#![tactic(auto)]

mod dirty_map;
mod file_medium;
mod image;
mod memory_bench;
mod memory_content;
mod memory_medium;
mod open_file;
mod power;
mod spans;
mod torn_images;

pub use file_medium::FileMedium;
pub use medium_model::{Bench, Medium, ReserveError, Tear};
pub use memory_bench::MemoryBench;
pub use memory_medium::MemoryMedium;

#[cfg(test)]
mod tests;
