//! Worked rows of a trial's device: what its fixes, fuses and power losses leave, over a bench in memory. It has tests alone, so that
//! the crates below aren't proved once more for them.
#![tactic(auto)]

#[cfg(test)]
mod device;
#[cfg(test)]
mod rows;
