//! A server over doors in memory, with threads: whole streams, cut ones and those that are sent again, and accepts that fail. It has
//! tests alone, so that the crates below aren't proved once more for them.
#![tactic(auto)]

#[cfg(test)]
mod doors_of_streams;
#[cfg(test)]
mod rows;
