//! The program over any host: the words that it is started with, the text that it reads, and the status that it ends with.
//! Each status has its cause and its printed line as clauses of `run`; the outcome of a trial that was played has all that every
//! trial keeps, and so have its benches; of a capture all is printed that it has, up to its first fault, and of an archive that was served what its workers report.
#![tactic(auto)]

mod running;
mod serving;
mod showing;
#[cfg(test)]
mod tests;

pub use fmb_io::{
    DONE, HOST_FAULT, MEDIUM_FAULT, NO_MEMORY, REFUSED_MEDIUM, REFUSED_TEXT, REFUSED_WORDS,
    SINK_FAULT, SOURCE_FAULT, give_up,
};
pub use running::run;
pub use showing::run_show;
