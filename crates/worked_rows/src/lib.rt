//! Worked rows that take several crates: a flash ring and a shelf over media in memory, under power loss and failing calls. It has tests
//! alone, so that the crates below aren't proved once more for them.
#![tactic(auto)]

#[cfg(test)]
mod archive;
#[cfg(test)]
mod command_frames;
#[cfg(test)]
mod flash;
#[cfg(test)]
mod frames;
#[cfg(test)]
mod journal;
#[cfg(test)]
mod values;
