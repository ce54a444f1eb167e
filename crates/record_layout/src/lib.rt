//! AVL records and data bodies of the three codecs as definitions: one table of parts for each codec, from which both a
//! record's spelling and the rows of its verdict are read; what a data body is; and the laws of data bodies.
#![tactic(auto)]

mod head;
mod laws;
mod part;

pub use head::PacketHead;
pub use laws::{
    body_is_counted, body_is_whole, no_packet_begins_another, packet_is_whole,
    packet_verdict_stays, records_are_read, whole_is_body, whole_is_packet,
};
pub use part::{Field, Part, count_width, id_width, parts};
