//! What is printed of the items of a capture: each line as a definition of its bytes, and the calls that append it to a buffer. A
//! line is one object of compact JSON with its keys in alphabetical order, made by `serde_json`, and a line feed.
#![tactic(auto)]

mod command;
mod elements;
mod item;
mod laws;
mod members;
mod packet;
mod push;
mod record;

pub use command::push_command_line;
pub use item::{Item, push_line};
pub use laws::record_is_read;
pub use packet::push_packet_lines;
pub use record::push_record_line;
