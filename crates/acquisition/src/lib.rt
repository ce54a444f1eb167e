//! Which records a fix makes: a device's settings, checked so that each record fits 255 bytes, and the acquirer, which keeps one
//! watch for each I/O setting and the last fix that made a record.
#![tactic(auto)]

mod acquirer;
mod elements;
mod firing;
mod fix;
mod last_fix;
mod making;
mod settings;

pub use acquirer::Acquirer;
pub use fix::Fix;
pub use settings::{SettingFault, Settings};

#[cfg(test)]
mod tests;
