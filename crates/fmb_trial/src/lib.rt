//! A trial over any host: a script that is read from a text or made from a seed is played on the host's benches, the benches go back,
//! the host keeps the outcome, and its report is printed. Each status has its cause and its printed line as clauses, and the outcome and
//! the benches have all that every trial keeps.
#![tactic(auto)]

mod benches;
mod judging;
mod playing;
mod running;

pub use running::{run_made, run_trial};
