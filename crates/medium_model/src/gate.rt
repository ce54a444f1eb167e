/// The byte of an open gate: what the gate guards counts. Any other byte closes it (this project's own).
pub const OPEN: u8 = 0xA5;

/// The byte that is written to close a gate.
pub const CLOSED: u8 = 0;
