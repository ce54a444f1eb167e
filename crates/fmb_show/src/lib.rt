//! What `fmb show` does with a capture: the lines of its items printed in order, up to the first fault. What is printed is one
//! definition over the capture's text, whatever pieces the sink takes.
#![tactic(auto)]

mod capture;
mod command;
mod datagram;
mod down;
mod line;
mod printing;
mod rest;
mod up;

pub use capture::{ShowEnd, show_capture};
