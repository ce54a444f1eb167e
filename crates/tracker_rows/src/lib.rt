//! Worked rows of a tracker: what comes down a link in memory, and how the round over it ends, also where calls of the link or of the
//! flash fail. It has tests alone, so that the crates below aren't proved once more for them.
#![tactic(auto)]

#[cfg(test)]
mod keeping;
#[cfg(test)]
mod media;
#[cfg(test)]
mod rounds;
#[cfg(test)]
mod samples;
