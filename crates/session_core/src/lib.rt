//! A server's end of a connection: which devices it knows, the commands that wait for them, and a session.
#![tactic(auto)]

mod known;
mod laws;
mod orders;
mod serve;
mod served;
mod session;
mod work;

pub use known::{ImeiList, Known};
pub use laws::{counted_is_archived, well_formed_ends};
pub use orders::{NoOrders, Orders};
pub use serve::serve_link;
pub use served::{Served, SessionEnd};
pub use session::{Session, Step};
