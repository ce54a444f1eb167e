//! The device's end of a connection: a tracker keeps records in a ring on a flash, sends them in batches, and closes a batch's
//! slots once its own count was heard. No call takes memory.
#![tactic(auto)]

mod answering;
mod heard;
mod kept;
mod losses;
mod packing;
mod round;
mod round_end;
mod shell;
mod storing;
mod tracker;

pub use heard::{Got, Heard};
pub use kept::{KeepFault, Kept};
pub use losses::Losses;
pub use round_end::RoundEnd;
pub use shell::{PlainShell, Shell};
pub use tracker::Tracker;
