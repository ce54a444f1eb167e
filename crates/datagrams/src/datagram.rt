use avl_values::Imei;

/// A datagram of a device (Teltonika, Data Sending Protocols, "Codec 8 protocol sending over UDP").
#[derive(Clone, Copy)]
pub struct Datagram<'a> {
    /// The packet id.
    pub packet: u16,
    /// The byte that isn't used.
    pub unused: u8,
    /// The AVL packet id.
    pub avl_packet: u8,
    /// The device's.
    pub imei: Imei,
    /// The data body, from the codec id to the second number of records.
    pub body: &'a [u8],
}
