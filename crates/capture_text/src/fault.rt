ghost use Rattle.std.specs.Prelude.{◌≡◌};

use std::error::Error;
use std::fmt;

/// Why a capture is refused (this project's own names).
#[derive(Clone, Copy, Debug, PartialEq, Eq)]
pub enum CaptureFault {
    /// The text has more than 2^24 bytes.
    TextTooLong,
    /// What comes before the line's first space, or the whole line, is no word of a capture.
    UnknownWord,
    /// There is no space, an odd number of digits, or another character among them.
    BadHex,
}

impl CaptureFault {
    ghost use Rattle.capture_text.specs.Capture.{fault_name};

    /// The variant's own name.
    pub fn name(self) -> &'static str
        ensures { result.now ≡ fault_name self }
    {
        match self {
            CaptureFault::TextTooLong => "TextTooLong",
            CaptureFault::UnknownWord => "UnknownWord",
            CaptureFault::BadHex => "BadHex",
        }
    }
}

/// The first fault of a capture.
#[derive(Clone, Copy, Debug, PartialEq, Eq)]
pub struct CaptureRefusal {
    /// The line, from 1; 0 is the whole text.
    pub line: u32,
    pub fault: CaptureFault,
}

impl fmt::Display for CaptureRefusal {
    fn fmt<W: fmt::Write>(&self, f: &mut fmt::Formatter<W>) -> fmt::Result {
        write!(f, "line {} {}", self.line, self.fault.name())
    }
}

impl Error for CaptureRefusal {}
