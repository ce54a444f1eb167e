//! Links: one connection as its users see it, the loop that writes a whole buffer, and a link in memory that gives its bytes
//! in pieces and fails at chosen calls.
#![tactic(auto)]

mod link;
mod memory_link;
mod sending;

pub use link::Link;
pub use memory_link::MemoryLink;
pub use sending::send;

#[cfg(test)]
mod tests;
