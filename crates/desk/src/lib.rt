//! Turns at one archive for many sessions. Each call of `admit` waits for its turn, and the calls of all seats are in one history,
//! which leaves the archive's record list.
#![tactic(auto)]

mod desk;
mod rule;
mod view;

pub use desk::{Desk, DeskSeat, Seat};
