use crate::heard::Got;

/// How a round ended.
#[derive(Clone, Copy, Debug, PartialEq, Eq)]
pub enum RoundEnd {
    /// Each batch that was sent was counted, N records in all, and as many batches were sent as asked for, or no slot is
    /// open.
    Done(u32),
    /// No slot was open, and nothing was written.
    Empty,
    /// The login's answer was `00`.
    Refused,
    /// The link was at its end, or it failed.
    Broken,
    /// Something else was heard than what the tracker waited for.
    WrongAnswer {
        /// What was heard.
        got: Got,
    },
    /// A 17th command came, which wasn't obeyed.
    TooManyCommands,
}
