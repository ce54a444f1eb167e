//! A text that is read piece by piece, and a sink that is written piece by piece: what contracts see of each, a source and a sink in
//! memory, the loop that writes a whole text, and the line of a text that is refused.
#![tactic(auto)]

mod memory_sink;
mod memory_source;
mod pieces;
mod refused;
mod sink;
mod source;
#[cfg(test)]
mod tests;
mod writing;

pub use memory_sink::MemorySink;
pub use memory_source::MemorySource;
pub use pieces::{push, push_decimal, push_imei};
pub use refused::refused_text;
pub use sink::Sink;
pub use source::Source;
pub use writing::write_text;
