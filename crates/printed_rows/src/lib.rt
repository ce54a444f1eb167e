//! Worked rows of what is printed: the lines of `show`, and the report of a trial. It has tests alone, so that the crates below aren't
//! proved once more for them.
#![tactic(auto)]

#[cfg(test)]
mod lines;
#[cfg(test)]
mod report;
