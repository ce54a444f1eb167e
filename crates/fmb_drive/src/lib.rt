//! `drive`: a device that plays a script against a server, over a host. It keeps the records that the script's fixes make on its flash,
//! sends them over links that the host dials, and prints how each connection ended. What is printed is a function of what happened, and
//! what happened is bound to the script, the flash and the links.
#![tactic(auto)]

mod connecting;
mod device;
mod driving;
mod ending;
mod lines;
mod opening;
mod playing;
mod stop;
mod storing;

pub use driving::run_drive;
