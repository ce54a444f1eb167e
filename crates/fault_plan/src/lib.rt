//! Which calls of a thing in memory fail on purpose.
#![tactic(auto)]

mod plan;

pub use plan::FaultPlan;
