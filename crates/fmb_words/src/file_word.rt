//! The words of a command that has one argument, FILE.
ghost use Rattle.std.specs.Prelude.{◌≡◌, Err, None, Some, IfOk, codes, is_some, map, string_bytes, true};
ghost use Rattle.clap.specs.Words.{FailsBy, fault_of, first_of, first_value, found_of, matches_of};
ghost use Rattle.fmb_words.specs.Commands.{file_app};
ghost use Rattle.fmb_words.specs.Words.{file_of};

use crate::commands::{bare, one_value};
use crate::fault::WordsFault;
use clap::{ArgMatches, Error};
use std::alloc::Global;

// What clap makes of the words of `NAME FILE`, of which the first is the command's own.
fn file_matches<'a>(
    alloc: Global,
    name: &'a str,
    words: &'a [String],
) -> Result<ArgMatches<'a>, Error>
    ensures kinds { FailsBy (fault_of (file_app name.entry.now) (map string_bytes words.entry.now)) result }
    ensures file { IfOk result (λ m. first_value (found_of m) (codes "FILE") ≡ first_of (codes "FILE") (matches_of (file_app name.entry.now) (map string_bytes words.entry.now))) }
    ensures given { IfOk result (λ m. is_some (first_value (found_of m) (codes "FILE")) ≡ true) }
{
    let file = one_value(alloc, "FILE");
    let command = bare(alloc, name).arg(file)?;
    command.try_get_matches_from(words)
}

/// The FILE of the words of the command `name FILE`, of which the first is the command's own.
pub fn read_file<'a>(
    alloc: Global,
    name: &'a str,
    words: &'a [String],
) -> Result<&'a str, WordsFault>
    ensures read { IfOk result (λ file. file_of name.entry.now (map string_bytes words.entry.now) ≡ Some file.now) }
    ensures refused { result ≡ Err WordsFault.Refused → file_of name.entry.now (map string_bytes words.entry.now) ≡ None }
{
    let matches = file_matches(alloc, name, words)?;
    Ok(matches.get_str("FILE").unwrap())
}
