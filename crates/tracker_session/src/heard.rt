use avl_values::Fault;

/// What was heard that isn't what the tracker waits for.
#[derive(Clone, Copy, Debug, PartialEq, Eq)]
pub enum Got {
    /// The login's answer is neither `00` nor `01`.
    Login(u8),
    /// A count that isn't that of an outstanding batch.
    Count(u32),
    /// No count or command can begin with these bytes. The fault's place is counted from the item's first byte.
    Frame(Fault),
}

/// What a tracker has heard.
#[derive(Clone, Copy, Debug, PartialEq, Eq)]
pub enum Heard {
    /// Fewer bytes than an item.
    More,
    /// The login's answer `01`.
    Accepted,
    /// The login's answer `00`. The talk is over.
    Refused,
    /// The outstanding batch's own count, of N records. Their slots are closed.
    Released(u8),
    /// A command, whose answer is to be sent.
    Answer,
    /// Something else than what the tracker waits for. The talk is over.
    Wrong(Got),
    /// The medium failed while the batch was released. The ring is down, and the talk is over.
    MediumFault,
}

/// What was heard, or that a command was heard which isn't to be obeyed. Then the talk is over.
#[derive(Clone, Copy)]
pub enum Hearing {
    Done(Heard),
    Unobeyed,
}
