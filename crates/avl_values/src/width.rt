ghost use Rattle.std.specs.Prelude.{◌≡◌};
ghost use Rattle.avl_values.specs.Width.{bytes_of, width_of_bytes};

/// The width of a number on the wire: 1, 2, 4 or 8 bytes (Teltonika, Data Sending Protocols, I/O elements).
#[derive(Clone, Copy, Debug, PartialEq, Eq)]
pub enum Width {
    /// One byte.
    W1,
    /// Two bytes.
    W2,
    /// Four bytes.
    W4,
    /// Eight bytes.
    W8,
}

impl Width {
    /// The number of bytes.
    pub fn bytes(self) -> u8
        ensures { result ≡ bytes_of self }
    {
        match self {
            Width::W1 => 1,
            Width::W2 => 2,
            Width::W4 => 4,
            Width::W8 => 8,
        }
    }

    /// The width of N bytes; None exactly for any number but 1, 2, 4 and 8.
    pub fn from_bytes(n: u8) -> Option<Width>
        ensures { result ≡ width_of_bytes n }
    {
        match n {
            1 => Some(Width::W1),
            2 => Some(Width::W2),
            4 => Some(Width::W4),
            8 => Some(Width::W8),
            _ => None,
        }
    }
}
