//! Doors: where a server's connections come in, and a door in memory that gives its links in order and fails at chosen accepts.
#![tactic(auto)]

mod door;
mod memory_door;

pub use door::Door;
pub use memory_door::MemoryDoor;

#[cfg(test)]
mod tests;
