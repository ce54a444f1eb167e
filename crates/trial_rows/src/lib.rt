//! Trials over a host in memory: what each script's report says, its status, and what goes back. It has tests alone, so that the crates
//! below aren't proved once more for them.
#![tactic(auto)]

#[cfg(test)]
mod hosts;
#[cfg(test)]
mod kept;
#[cfg(test)]
mod made;
#[cfg(test)]
mod replay;
#[cfg(test)]
mod rows;
#[cfg(test)]
mod stops;
