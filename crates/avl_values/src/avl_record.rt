use crate::gps::Gps;
use crate::io::Io;
use crate::nx_list::NxList;
use arrayvec::ArrayVec;

/// An AVL record before it is spelled in a codec (Teltonika, Data Sending Protocols, AVL data).
#[derive(Drop)]
pub struct AvlRecord {
    /// Milliseconds since 1970 UTC.
    pub time: u64,
    /// 0 low, 1 high, 2 panic. Every number of its type is accepted.
    pub priority: u8,
    /// Where the vehicle was then.
    pub gps: Gps,
    /// The id of the I/O element that made the record, 0 where none did.
    pub event: u16,
    /// What made the record. Only Codec 16 has it; elsewhere it is 0.
    pub generation: u8,
    /// The elements of 1, 2, 4 and 8 bytes. Of each width they keep their order.
    pub ios: ArrayVec<Io, 112>,
    /// The elements of any length. Only Codec 8 Extended has them.
    pub nx: NxList,
}
