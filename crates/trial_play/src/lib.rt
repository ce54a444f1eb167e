//! A whole trial, as definitions and lemmas: what each line of a script does to both ends of all connections, on plain data; and that
//! whatever a script's lines do, its outcome is what every trial keeps, power losses on both ends included.
#![tactic(auto)]

mod laws;

pub use laws::every_trial_is_kept;
