//! What the program prints: the report of a trial's outcome, as a definition of its bytes and as a writer that is proved
//! against it. A text is built whole in memory before its first byte is printed.
#![tactic(auto)]

mod connections;
mod devices;
mod ends;
mod report;

pub use devices::push_record;
pub use ends::{push_device_end, push_server_end};
pub use report::report_text;
