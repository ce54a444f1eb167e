//! Worked rows of sessions over links in memory, with a shelf over a medium in memory. It has tests alone, so that the crates below
//! aren't proved once more for them.
#![tactic(auto)]

#[cfg(test)]
mod lengths;
#[cfg(test)]
mod rows;
#[cfg(test)]
mod serving;
