//! When a value of an I/O element makes a record: operands over the value before and the value now.
#![tactic(auto)]

mod setting;
mod watch;

pub use setting::{IoSetting, Operand};
pub use watch::Watch;

#[cfg(test)]
mod tests;
