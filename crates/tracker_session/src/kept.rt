/// That a record was stored.
#[derive(Clone, Copy, Debug, PartialEq, Eq)]
pub enum Kept {
    /// A slot was closed before, and holds it now.
    Stored,
    /// Every slot was open. The oldest record was listed as lost and given up, and its slot holds the new one.
    StoredOver,
}

/// Why a record isn't stored.
#[derive(Clone, Copy, Debug, PartialEq, Eq)]
pub enum KeepFault {
    /// The next sequence is 2^63. Nothing is listed, and the ring is as before.
    SeqSpent,
    /// The oldest record of a full ring couldn't be listed as lost. The ring is as before.
    ListFault,
    /// The medium failed in this call. The ring is down, and a power loss leaves the records before, those without the oldest
    /// of a full ring, or those with the new one.
    MediumFault,
}
