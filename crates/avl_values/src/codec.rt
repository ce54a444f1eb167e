ghost use Rattle.std.specs.Prelude.{◌≡◌};
ghost use Rattle.avl_values.specs.Codec.{codec_of, id_of};

/// A codec of records (Teltonika, Data Sending Protocols: Codec 8, Codec 8 Extended, Codec 16).
#[derive(Clone, Copy, Debug, PartialEq, Eq)]
pub enum Codec {
    /// Codec 8: ids and counts of one byte.
    C8,
    /// Codec 8 Extended: ids and counts of two bytes, and elements of any length.
    C8E,
    /// Codec 16: ids of two bytes, counts of one, and a generation type.
    C16,
}

impl Codec {
    /// The codec id, the first byte of a data body: `08`, `8E`, `10`.
    pub fn id(self) -> u8
        ensures { result ≡ id_of self }
    {
        match self {
            Codec::C8 => 0x08,
            Codec::C8E => 0x8e,
            Codec::C16 => 0x10,
        }
    }

    /// The codec of an id; None exactly for any id but `08`, `8E` and `10`.
    pub fn from_id(id: u8) -> Option<Codec>
        ensures { result ≡ codec_of id }
    {
        match id {
            0x08 => Some(Codec::C8),
            0x8e => Some(Codec::C8E),
            0x10 => Some(Codec::C16),
            _ => None,
        }
    }
}
