use avl_values::{Fault, Imei};

/// How a session ended. The first cause in the order of the bytes decides.
#[derive(Clone, Copy, Debug, PartialEq, Eq)]
pub enum SessionEnd {
    /// The link was at its end, between items.
    Ended,
    /// The link was at its end inside an item.
    EndedInside {
        /// How many bytes of the item had come, at least 1.
        have: u32,
    },
    /// A call of the link failed, and its count of faults rose.
    LinkFault,
    /// No item can begin with the bytes after the last whole one.
    Broken(Fault),
    /// The device isn't known. `00` was written.
    Unknown {
        /// That of the login.
        imei: Imei,
    },
    /// The archive's medium failed as it admitted a packet, whose count wasn't written.
    MediumFault {
        /// How often the medium has failed.
        faults: u64,
    },
    /// The archive was down before a packet was admitted, whose count wasn't written.
    Down {
        /// How often the medium has failed.
        faults: u64,
    },
    /// As many bytes were taken as a session may take, and each whole item in them was dealt with.
    LongEnough {
        /// 2^30.
        taken: u64,
    },
    /// A growth of memory was refused, before the first byte or as a packet was admitted, whose count wasn't written.
    NoMemory,
}

/// What was served over a link.
#[derive(Clone, Copy, Debug, PartialEq, Eq)]
pub struct Served {
    /// The IMEI of the login that was heard whole, known or not; None without one.
    pub imei: Option<Imei>,
    /// How many counts were written whole.
    pub frames: u64,
    /// Their sum.
    pub records: u64,
    /// How the session ended.
    pub end: SessionEnd,
}
