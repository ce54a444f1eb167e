ghost use Rattle.std.specs.Prelude.{◌≡◌, ◌↔◌};

use clap::error::ErrorKind;
use std::alloc::AllocError;
use std::error::Error;
use std::fmt;

/// Why a list of words gives no command. The words are as before.
#[derive(Clone, Copy, Debug, PartialEq, Eq)]
pub enum WordsFault {
    /// The first word names no command, or clap refuses the rest.
    Refused,
    /// A growth of memory was refused.
    NoMemory,
}

impl From<AllocError> for WordsFault {
    ghost use Rattle.fmb_words.specs.declared.fault.WordsFault.TheVariants as fault;

    ghost from_gives = { λ _ e. e ≡ fault.NoMemory };

    fn from(_e: AllocError) -> WordsFault {
        WordsFault::NoMemory
    }
}

impl From<clap::Error> for WordsFault {
    ghost use Rattle.clap.specs.Words.{kind_of};
    ghost use Rattle.clap.specs.declared.error.kind.ErrorKind.TheVariants.{OutOfMemory};
    ghost use Rattle.fmb_words.specs.declared.fault.WordsFault.TheVariants as fault;

    ghost from_gives = { λ error e. (e ≡ fault.NoMemory) ↔ (kind_of error ≡ OutOfMemory) };

    fn from(error: clap::Error) -> WordsFault {
        match error.kind() {
            ErrorKind::OutOfMemory => WordsFault::NoMemory,
            _ => WordsFault::Refused,
        }
    }
}

impl fmt::Display for WordsFault {
    fn fmt<W: fmt::Write>(&self, f: &mut fmt::Formatter<W>) -> fmt::Result {
        match self {
            WordsFault::Refused => f.write_str("refused words"),
            WordsFault::NoMemory => f.write_str("no memory"),
        }
    }
}

impl Error for WordsFault {}
