//! The checksum of a frame, CRC-16/IBM. `specs/Crc.antt` has its definition, bit by bit; the code looks eight bits up at once.
#![tactic(auto)]

mod running;
mod table;

pub use running::{Running, crc};

#[cfg(test)]
mod tests;
