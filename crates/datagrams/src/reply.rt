/// The server's reply to a datagram (Teltonika, Data Sending Protocols, "Codec 8 protocol sending over UDP").
#[derive(Clone, Copy, Debug, PartialEq, Eq)]
pub struct Reply {
    /// The datagram's packet id.
    pub packet: u16,
    /// The datagram's byte that isn't used.
    pub unused: u8,
    /// The datagram's AVL packet id.
    pub avl_packet: u8,
    /// How many of its records were accepted.
    pub count: u8,
}
