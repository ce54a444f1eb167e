use avl_values::Codec;

/// What a whole data body says first: its codec and its number of records.
#[derive(Clone, Copy, Debug, PartialEq, Eq)]
pub struct PacketHead {
    /// The codec of all its records.
    pub codec: Codec,
    /// 1 to 255.
    pub count: u8,
}
