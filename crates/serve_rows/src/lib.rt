//! A server over a host in memory, with threads: what it prints, its status, and what goes back, also where calls fail. It has tests alone,
//! so that the crates below aren't proved once more for them.
#![tactic(auto)]

#[cfg(test)]
mod failing;
#[cfg(test)]
mod rows;
