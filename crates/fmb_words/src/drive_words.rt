//! The words of `drive`.
ghost use Rattle.std.specs.Prelude.{◌≡◌, Err, None, Some, IfOk, map, string_bytes};
ghost use Rattle.clap.specs.Words.{FailsBy, fault_of, found_of, matches_of, rows_of};
ghost use Rattle.fmb_words.specs.Commands.{drive_app};
ghost use Rattle.fmb_words.specs.Values.{drive_value_of};
ghost use Rattle.fmb_words.specs.Words.{drive_of, drive_read};

use crate::commands::{bare, one_value};
use crate::fault::WordsFault;
use clap::{ArgMatches, Error};
use std::alloc::Global;

/// What a device is driven by.
#[derive(Clone, Copy, Debug)]
pub struct DriveWords<'a> {
    /// The address of the server.
    pub address: &'a str,
    /// The name of the device's flash.
    pub flash: &'a str,
    /// The name of the script.
    pub script: &'a str,
}

// What clap makes of the words of `drive`, of which the first is the command's own.
fn drive_matches<'a>(alloc: Global, words: &'a [String]) -> Result<ArgMatches<'a>, Error>
    ensures kinds { FailsBy (fault_of drive_app (map string_bytes words.entry.now)) result }
    ensures rows { IfOk result (λ m. rows_of (found_of m) ≡ matches_of drive_app (map string_bytes words.entry.now)) }
{
    let address = one_value(alloc, "ADDRESS");
    let flash = one_value(alloc, "FLASH");
    let script = one_value(alloc, "SCRIPT");
    let command = bare(alloc, "drive").arg(address)?.arg(flash)?.arg(script)?;
    command.try_get_matches_from(words)
}

// What clap's matches ask for.
fn asked_by<'a>(matches: &ArgMatches<'a>) -> Result<DriveWords<'a>, WordsFault>
    ensures read { IfOk result (λ d. drive_read (rows_of (found_of matches.now)) ≡ Some (drive_value_of d)) }
    ensures refused { result ≡ Err WordsFault.Refused → drive_read (rows_of (found_of matches.now)) ≡ None }
{
    let Some(address) = matches.get_str("ADDRESS") else {
        return Err(WordsFault::Refused);
    };
    let Some(flash) = matches.get_str("FLASH") else {
        return Err(WordsFault::Refused);
    };
    let Some(script) = matches.get_str("SCRIPT") else {
        return Err(WordsFault::Refused);
    };
    Ok(DriveWords {
        address,
        flash,
        script,
    })
}

/// What the words of `drive` ask for, of which the first is the command's own.
pub(crate) fn read_drive<'a>(
    alloc: Global,
    words: &'a [String],
) -> Result<DriveWords<'a>, WordsFault>
    ensures read { IfOk result (λ d. drive_of (map string_bytes words.entry.now) ≡ Some (drive_value_of d)) }
    ensures refused { result ≡ Err WordsFault.Refused → drive_of (map string_bytes words.entry.now) ≡ None }
{
    let matches = drive_matches(alloc, words)?;
    asked_by(&matches)
}
