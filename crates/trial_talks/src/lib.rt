//! One connection of a trial: a device's round over its line's wire, joined with what the server's session did, in the words of the
//! connection's log; a line that gives a session more; and which sessions are kept between lines.
#![tactic(auto)]

mod connecting;

pub use connecting::{Carried, ConnectionLine, connect};
