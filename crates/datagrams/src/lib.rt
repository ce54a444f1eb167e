//! Data over UDP: a device's datagrams and the server's replies. Each is given as rows, for the verdict on any bytes, and as the
//! list of bytes that it is, with the laws between both; and read and written.
#![tactic(auto)]

mod datagram;
mod laws;
mod place;
mod reading;
mod reply;
mod writing;

pub use datagram::Datagram;
pub use laws::{
    datagram_is_whole, datagram_verdict_stays, no_datagram_begins_another, no_reply_begins_another,
    reply_is_whole, reply_verdict_stays, whole_is_datagram, whole_is_reply,
};
pub use reading::{read_datagram, read_reply};
pub use reply::Reply;
pub use writing::{write_datagram, write_reply};

#[cfg(test)]
mod tests;
