ghost use Rattle.std.specs.Prelude.{◌≡◌};
ghost use Rattle.io_operands.specs.Generation.{generation_of};

/// When an I/O element makes a record (Teltonika, Data Sending Protocols, "Generation type"; the exact rules are this
/// project's own).
#[derive(Clone, Copy, Debug, PartialEq, Eq)]
pub enum Operand {
    /// The value leaves the range.
    Exit,
    /// The value comes into the range.
    Entrance,
    /// Either of both.
    Both,
    /// The value passes above the range, or below it.
    Hysteresis,
    /// The value isn't the one before.
    Change,
    /// Never: the element is only carried.
    Monitoring,
}

impl Operand {
    /// The generation type of a record that the operand makes, in Codec 16: 0, 1, 2, 4, 5, 7 in the order of the variants.
    pub fn generation(self) -> u8
        ensures { result ≡ generation_of self }
    {
        match self {
            Operand::Exit => 0,
            Operand::Entrance => 1,
            Operand::Both => 2,
            Operand::Hysteresis => 4,
            Operand::Change => 5,
            Operand::Monitoring => 7,
        }
    }
}

/// An I/O element of a device, and when it makes a record.
#[derive(Clone, Copy, Debug, PartialEq, Eq)]
pub struct IoSetting {
    /// The AVL id of the element.
    pub id: u16,
    /// Bytes of the value: 1, 2, 4 or 8. Any other number is refused where settings are checked.
    pub width: u8,
    /// Which values make a record.
    pub operand: Operand,
    /// The least value in range.
    pub low: u64,
    /// The greatest value in range.
    pub high: u64,
    /// The priority of a record that it makes (Teltonika, Data Sending Protocols: 0 low, 1 high, 2 panic).
    pub priority: u8,
}

impl Default for IoSetting {
    /// An element of one byte that never makes a record: what an array has where no setting stands yet.
    fn default() -> IoSetting {
        IoSetting {
            id: 0,
            width: 1,
            operand: Operand::Monitoring,
            low: 0,
            high: 0,
            priority: 0,
        }
    }
}
