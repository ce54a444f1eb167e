ghost use Rattle.std.specs.Prelude.{◌≡◌};

use avl_values::NoMemory;
use std::alloc::AllocFailed;
use std::error::Error;
use std::fmt;

/// Why a script is refused (this project's own numbers and names). They are judged in this order, and the fields of a line from left to right.
#[derive(Clone, Copy, Debug, PartialEq, Eq)]
pub enum ScriptFault {
    /// The text has more than 2^24 bytes.
    TextTooLong,
    /// The first field is none of the nine words.
    UnknownWord,
    /// The number of fields isn't the line's; of a `fix` line, there are fewer than nine after the word.
    FieldCount,
    /// Not 15 digits, and not `server` where that may be.
    BadImei,
    /// Not one of the words that may be there.
    BadChoice,
    /// Not a number, or out of its range.
    BadNumber,
    /// A second `device` line of an IMEI.
    TwiceDevice,
    /// The 65th `device` line.
    TooManyDevices,
    /// An IMEI without an earlier `device` line.
    NoDevice,
    /// An `io` line after a `fix`, `round`, `drain`, `power` or `fuse` line of its device.
    SettingsClosed,
    /// `Settings::check` refuses the device's settings up to this line.
    BadSetting,
    /// A `fix` whose number of values isn't that of the settings.
    ValueCount,
    /// A value that doesn't fit its setting's width.
    ValueTooWide,
    /// A connection whose number is 0, or above the number of `round` and `drain` lines so far.
    NoConnection,
    /// A `round` line that would leave a 65th half-open connection.
    TooManyOpen,
    /// A line that `drive` refuses in a script that is well formed.
    NotForDrive,
}

impl ScriptFault {
    ghost use Rattle.journey_script.specs.Faults.{fault_name, fault_number};

    /// The fault's number, from 1 to 16 in the order of the variants.
    pub fn number(self) -> u8
        ensures { result ≡ fault_number self }
    {
        match self {
            ScriptFault::TextTooLong => 1,
            ScriptFault::UnknownWord => 2,
            ScriptFault::FieldCount => 3,
            ScriptFault::BadImei => 4,
            ScriptFault::BadChoice => 5,
            ScriptFault::BadNumber => 6,
            ScriptFault::TwiceDevice => 7,
            ScriptFault::TooManyDevices => 8,
            ScriptFault::NoDevice => 9,
            ScriptFault::SettingsClosed => 10,
            ScriptFault::BadSetting => 11,
            ScriptFault::ValueCount => 12,
            ScriptFault::ValueTooWide => 13,
            ScriptFault::NoConnection => 14,
            ScriptFault::TooManyOpen => 15,
            ScriptFault::NotForDrive => 16,
        }
    }

    /// The variant's own name.
    pub fn name(self) -> &'static str
        ensures { result.now ≡ fault_name self }
    {
        match self {
            ScriptFault::TextTooLong => "TextTooLong",
            ScriptFault::UnknownWord => "UnknownWord",
            ScriptFault::FieldCount => "FieldCount",
            ScriptFault::BadImei => "BadImei",
            ScriptFault::BadChoice => "BadChoice",
            ScriptFault::BadNumber => "BadNumber",
            ScriptFault::TwiceDevice => "TwiceDevice",
            ScriptFault::TooManyDevices => "TooManyDevices",
            ScriptFault::NoDevice => "NoDevice",
            ScriptFault::SettingsClosed => "SettingsClosed",
            ScriptFault::BadSetting => "BadSetting",
            ScriptFault::ValueCount => "ValueCount",
            ScriptFault::ValueTooWide => "ValueTooWide",
            ScriptFault::NoConnection => "NoConnection",
            ScriptFault::TooManyOpen => "TooManyOpen",
            ScriptFault::NotForDrive => "NotForDrive",
        }
    }
}

/// Why a text gives no script.
#[derive(Clone, Copy, Debug, PartialEq, Eq)]
pub enum ReadFault {
    /// The first line that is refused, from 1, and its first fault; line 0 is the whole text.
    Line { line: u32, kind: ScriptFault },
    /// A growth of memory was refused.
    NoMemory,
}

impl From<NoMemory> for ReadFault {
    ghost use Rattle.journey_script.specs.declared.fault.ReadFault.TheVariants as Fault;

    ghost from_gives = { λ _ fault. fault ≡ Fault.NoMemory };

    fn from(_e: NoMemory) -> ReadFault {
        ReadFault::NoMemory
    }
}

impl<T: Drop> From<AllocFailed<T>> for ReadFault {
    ghost use Rattle.journey_script.specs.declared.fault.ReadFault.TheVariants as Fault;

    ghost from_gives = { λ _ fault. fault ≡ Fault.NoMemory };

    fn from(_e: AllocFailed<T>) -> ReadFault {
        ReadFault::NoMemory
    }
}

impl fmt::Display for ReadFault {
    fn fmt<W: fmt::Write>(&self, f: &mut fmt::Formatter<W>) -> fmt::Result {
        match self {
            ReadFault::Line { line, kind } => write!(f, "line {} {}", line, kind.name()),
            ReadFault::NoMemory => f.write_str("no memory"),
        }
    }
}

impl Error for ReadFault {}

/// Why a line isn't taken.
#[derive(Clone, Copy, Debug, PartialEq, Eq)]
pub(crate) enum LineFault {
    Fault(ScriptFault),
    NoMemory,
}

impl From<ScriptFault> for LineFault {
    ghost use Rattle.journey_script.specs.declared.fault.LineFault.{LineFault};

    ghost from_gives = { λ kind fault. fault ≡ LineFault.Fault kind };

    fn from(kind: ScriptFault) -> LineFault {
        LineFault::Fault(kind)
    }
}

impl<T: Drop> From<AllocFailed<T>> for LineFault {
    ghost use Rattle.journey_script.specs.declared.fault.LineFault.{LineFault};

    ghost from_gives = { λ _ fault. fault ≡ LineFault.NoMemory };

    fn from(_e: AllocFailed<T>) -> LineFault {
        LineFault::NoMemory
    }
}
