/// How a bench's power goes on.
#[derive(Clone, Copy, Debug, PartialEq, Eq)]
pub enum Power {
    /// No call will fail.
    Unarmed,
    /// N calls pass, and the one after them is the power loss.
    Armed(u64),
    /// Each call fails until the restart.
    Lost,
}
