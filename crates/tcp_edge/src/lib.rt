//! Links and doors over TCP, or over any stream and listener. They tell contracts nothing of their bytes, and count their failures.
#![tactic(auto)]

mod door;
mod link;

pub use door::StreamDoor;
pub use link::{StreamLink, prepare};

#[cfg(test)]
mod tests;
