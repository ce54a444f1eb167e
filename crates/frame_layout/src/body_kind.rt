use record_layout::PacketHead;

/// What the body of a frame is.
#[derive(Clone, Copy, Debug, PartialEq, Eq)]
pub enum BodyKind {
    /// A data body, by what it says first.
    Packet(PacketHead),
    /// A command or a response. What it says is read from its bytes.
    Command,
}
