ghost use Rattle.std.specs.Prelude.{◌≡◌};
ghost use Rattle.avl_values.specs.FaultKind.{name_of, number_of};

/// Which rule of a field failed first in bytes that were received (this project's own numbers and names).
#[derive(Clone, Copy, Debug, PartialEq, Eq)]
pub enum FaultKind {
    /// The codec id is none of those that may be here.
    UnknownCodec,
    /// The number of records is 0.
    NoRecords,
    /// A field would end after the end of its body or datagram.
    Overrun,
    /// The counts of elements don't sum up to the total.
    TotalMismatch,
    /// The second number of records isn't the first.
    CountMismatch,
    /// Bytes come after the second number of records.
    Excess,
    /// A frame doesn't begin with four zero bytes.
    Preamble,
    /// The data field length is out of its range.
    Length,
    /// The two high bytes of the CRC field aren't zero.
    CrcHigh,
    /// The CRC isn't that of the body.
    CrcMismatch,
    /// The length of a login, or of a datagram's IMEI, isn't 15.
    LoginLength,
    /// A byte of a login, or of a datagram's IMEI, is no digit.
    LoginDigit,
    /// A datagram's or a reply's length isn't that of its bytes.
    DatagramLength,
    /// A quantity of a command isn't 1.
    Quantity,
    /// The command type isn't one of its codec and way.
    CommandType,
    /// A command's size isn't that of its content, or is too small.
    CommandSize,
    /// A half byte of a command's IMEI is no digit.
    ImeiDigits,
}

impl FaultKind {
    /// 1 to 17, in the order of the variants.
    pub fn number(self) -> u8
        ensures { result ≡ number_of self }
    {
        match self {
            FaultKind::UnknownCodec => 1,
            FaultKind::NoRecords => 2,
            FaultKind::Overrun => 3,
            FaultKind::TotalMismatch => 4,
            FaultKind::CountMismatch => 5,
            FaultKind::Excess => 6,
            FaultKind::Preamble => 7,
            FaultKind::Length => 8,
            FaultKind::CrcHigh => 9,
            FaultKind::CrcMismatch => 10,
            FaultKind::LoginLength => 11,
            FaultKind::LoginDigit => 12,
            FaultKind::DatagramLength => 13,
            FaultKind::Quantity => 14,
            FaultKind::CommandType => 15,
            FaultKind::CommandSize => 16,
            FaultKind::ImeiDigits => 17,
        }
    }

    /// The variant's own name.
    pub fn name(self) -> &'static str
        ensures { result.now ≡ name_of self }
    {
        match self {
            FaultKind::UnknownCodec => "UnknownCodec",
            FaultKind::NoRecords => "NoRecords",
            FaultKind::Overrun => "Overrun",
            FaultKind::TotalMismatch => "TotalMismatch",
            FaultKind::CountMismatch => "CountMismatch",
            FaultKind::Excess => "Excess",
            FaultKind::Preamble => "Preamble",
            FaultKind::Length => "Length",
            FaultKind::CrcHigh => "CrcHigh",
            FaultKind::CrcMismatch => "CrcMismatch",
            FaultKind::LoginLength => "LoginLength",
            FaultKind::LoginDigit => "LoginDigit",
            FaultKind::DatagramLength => "DatagramLength",
            FaultKind::Quantity => "Quantity",
            FaultKind::CommandType => "CommandType",
            FaultKind::CommandSize => "CommandSize",
            FaultKind::ImeiDigits => "ImeiDigits",
        }
    }
}

/// The first fault of an item's bytes.
#[derive(Clone, Copy, Debug, PartialEq, Eq)]
pub struct Fault {
    /// The rule that failed.
    pub kind: FaultKind,
    /// The first byte of the field whose rule failed, counted from 0 at the item's first byte.
    pub place: u32,
}
