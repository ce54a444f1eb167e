use avl_values::Fault;

/// What a device heard on the stream down where another item was due.
#[derive(Clone, Copy, Debug, PartialEq, Eq)]
pub enum Got {
    /// A login's answer that is neither accepted (1) nor refused (0).
    Login(u8),
    /// A count that isn't that of the packet that was sent last.
    Count(u32),
    /// A frame that is no well-formed command.
    Frame(Fault),
}
