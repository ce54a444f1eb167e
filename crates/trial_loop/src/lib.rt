//! The whole trial: a script is played line after line over both ends, each over the product's own parts, on benches that are handed in.
//! Power losses at any call of a medium are part of a script.
#![tactic(auto)]

mod connection;
mod connections;
mod enrolling;
mod outcome;
mod playing;
mod rounding;
mod sides;
mod starting;
mod state;

pub use playing::{Benches, trial};
