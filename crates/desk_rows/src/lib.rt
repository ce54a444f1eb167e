//! Sessions at one desk over a medium in memory, in threads and one after the other. It has tests alone, so that the crates below
//! aren't proved once more for them.
#![tactic(auto)]

#[cfg(test)]
mod one_after_the_other;
#[cfg(test)]
mod packets;
#[cfg(test)]
mod seats;
#[cfg(test)]
mod threads;
