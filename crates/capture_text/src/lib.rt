//! A capture's text, judged whole and then read line by line. A capture is text of at most 2^24 bytes, with lines as
//! `text_lines` has them; a line that isn't skipped is a word, one space, and an even number of hexadecimal digits of either case.
#![tactic(auto)]

mod capture;
mod fault;
mod line;
mod word;

pub use capture::Capture;
pub use fault::{CaptureFault, CaptureRefusal};
pub use line::CaptureLine;
pub use word::CaptureWord;

#[cfg(test)]
mod tests;
