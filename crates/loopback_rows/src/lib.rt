//! Devices and a server in one process, over TCP on this machine: one round, many connections of which some break off, and two at the same
//! time. It has tests alone, so that the crates below aren't proved once more for them.
#![tactic(auto)]

#[cfg(test)]
mod connections;
#[cfg(test)]
mod device;
#[cfg(test)]
mod plans;
#[cfg(test)]
mod round;
#[cfg(test)]
mod server;
#[cfg(test)]
mod side_by_side;
