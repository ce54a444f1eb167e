//! What the program asks of the world: the host that hands out texts, media, links, doors and benches, lends the sink and keeps the
//! outcome of a trial. It tells contracts how often it has failed, and what it hands out. A host in memory takes the place of the world
//! in tests.
#![tactic(auto)]

mod host;
mod memory_host;
mod queue;
#[cfg(test)]
mod tests;

pub use host::{Counts, Host};
pub use memory_host::MemoryHost;
