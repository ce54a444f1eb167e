//! Commands and responses of Codecs 12 to 15 as definitions: one table of what a command has of each codec and way, the
//! one spelling of a command, the rows of its verdict, and the laws between both.
#![tactic(auto)]

mod laws;
mod way;

pub use laws::{
    answer_fits, answer_is_command, answer_is_well_formed, command_is_value, command_is_whole,
    command_verdict_stays, no_command_begins_another, value_is_command, whole_is_command,
};
pub use way::Way;
