//! Readers of a TCP connection in any pieces: up, a login and then frames of data bodies and of responses; down, the login's
//! answer and then counts and frames of commands. Each takes every byte once, by `push_counted` in one step, and decides an item at
//! the same byte however the stream is cut.
#![tactic(auto)]

mod body_place;
mod body_reader;
mod count_place;
mod data_frame;
mod down;
mod down_item;
mod down_machine;
mod frame_machine;
mod frame_place;
mod known_bytes;
mod login_place;
mod up;
mod up_item;
mod up_machine;

pub use down::Down;
pub use down_item::DownItem;
pub use frame_layout::{write_count, write_frame, write_login};
pub use links::{Link, MemoryLink, send};
pub use up::Up;
pub use up_item::UpItem;
