//! The words of `trial`.
ghost use Rattle.std.specs.Prelude.{◌≡◌, Err, None, Some, IfOk, map, option_map, string_bytes};
ghost use Rattle.clap.specs.Words.{FailsBy, fault_of, found_of, matches_of, rows_of};
ghost use Rattle.fmb_words.specs.Commands.{trial_app};
ghost use Rattle.fmb_words.specs.Values.{trial};
ghost use Rattle.fmb_words.specs.Words.{is_set as is_set_of, trial_of, trial_read};

use crate::commands::{bare, flag_option, one_value};
use crate::fault::WordsFault;
use clap::{ArgMatches, Error};
use std::alloc::Global;

/// What a trial is asked for.
#[derive(Clone, Copy, Debug, PartialEq, Eq)]
pub struct TrialWords<'a> {
    /// The name of its script.
    pub file: &'a str,
    /// Whether its report is brief.
    pub brief: bool,
}

// What clap makes of the words of `trial`, of which the first is the command's own.
fn trial_matches<'a>(alloc: Global, words: &'a [String]) -> Result<ArgMatches<'a>, Error>
    ensures kinds { FailsBy (fault_of trial_app (map string_bytes words.entry.now)) result }
    ensures rows { IfOk result (λ m. rows_of (found_of m) ≡ matches_of trial_app (map string_bytes words.entry.now)) }
{
    let file = one_value(alloc, "FILE");
    let brief = flag_option(alloc, "brief");
    let command = bare(alloc, "trial").arg(file)?.arg(brief)?;
    command.try_get_matches_from(words)
}

// Whether a flag was given, by the text that clap keeps of it.
fn is_set(text: Option<&str>) -> bool
    ensures { result ≡ is_set_of (option_map (λ s. s.now) text.entry) }
{
    match text {
        Some(text) => text == "true",
        None => false,
    }
}

// What clap's matches ask for.
fn asked_by<'a>(matches: &ArgMatches<'a>) -> Result<TrialWords<'a>, WordsFault>
    ensures read { IfOk result (λ t. trial_read (rows_of (found_of matches.now)) ≡ Some (trial t.file.now t.brief)) }
    ensures refused { result ≡ Err WordsFault.Refused → trial_read (rows_of (found_of matches.now)) ≡ None }
{
    let Some(file) = matches.get_str("FILE") else {
        return Err(WordsFault::Refused);
    };
    let brief = is_set(matches.get_str("brief"));
    Ok(TrialWords { file, brief })
}

/// What the words of `trial` ask for, of which the first is the command's own.
pub(crate) fn read_trial<'a>(
    alloc: Global,
    words: &'a [String],
) -> Result<TrialWords<'a>, WordsFault>
    ensures read { IfOk result (λ t. trial_of (map string_bytes words.entry.now) ≡ Some (trial t.file.now t.brief)) }
    ensures refused { result ≡ Err WordsFault.Refused → trial_of (map string_bytes words.entry.now) ≡ None }
{
    let matches = trial_matches(alloc, words)?;
    asked_by(&matches)
}
