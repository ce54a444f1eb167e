//! The words of `made`.
ghost use Rattle.std.specs.Prelude.{◌≡◌, Err, None, Some, IfOk, map, string_bytes};
ghost use Rattle.clap.specs.Words.{FailsBy, fault_of, found_of, matches_of, rows_of};
ghost use Rattle.fmb_words.specs.Commands.{made_app};
ghost use Rattle.fmb_words.specs.Values.{IsMadeInRange, made_value_of};
ghost use Rattle.fmb_words.specs.Words.{made_asked, made_of, made_read};

use crate::commands::{bare, one_value};
use crate::fault::WordsFault;
use crate::number::number;
use clap::{ArgMatches, Error};
use std::alloc::Global;

/// What a script is made of.
#[derive(Clone, Copy, Debug, PartialEq, Eq)]
pub struct MadeWords {
    pub seed: u64,
    /// How many devices it has, 1 to 64.
    pub devices: u8,
    /// How many fixes they have together, 1 to 100,000.
    pub fixes: u32,
}

// What clap makes of the words of `made`, of which the first is the command's own.
fn made_matches<'a>(alloc: Global, words: &'a [String]) -> Result<ArgMatches<'a>, Error>
    ensures kinds { FailsBy (fault_of made_app (map string_bytes words.entry.now)) result }
    ensures rows { IfOk result (λ m. rows_of (found_of m) ≡ matches_of made_app (map string_bytes words.entry.now)) }
{
    let seed = one_value(alloc, "SEED");
    let devices = one_value(alloc, "DEVICES");
    let fixes = one_value(alloc, "FIXES");
    let command = bare(alloc, "made").arg(seed)?.arg(devices)?.arg(fixes)?;
    command.try_get_matches_from(words)
}

// What these words ask for.
#[tactic(auto, unfolding(crate::specs::Words::made_asked))]
fn asked(seed: &str, devices: &str, fixes: &str) -> Result<MadeWords, WordsFault>
    ensures read { IfOk result (λ m. made_asked seed.now devices.now fixes.now ≡ Some (made_value_of m)) }
    ensures ranges { IfOk result IsMadeInRange }
    ensures refused { result ≡ Err WordsFault.Refused → made_asked seed.now devices.now fixes.now ≡ None }
{
    let Some(seed) = number(0, u64::MAX, seed) else {
        return Err(WordsFault::Refused);
    };
    let Some(devices) = number(1, 64, devices) else {
        return Err(WordsFault::Refused);
    };
    let Some(fixes) = number(1, 100_000, fixes) else {
        return Err(WordsFault::Refused);
    };
    Ok(MadeWords {
        seed,
        devices: devices as u8,
        fixes: fixes as u32,
    })
}

// What clap's matches ask for.
fn asked_by(matches: &ArgMatches<'_>) -> Result<MadeWords, WordsFault>
    ensures read { IfOk result (λ m. made_read (rows_of (found_of matches.now)) ≡ Some (made_value_of m)) }
    ensures ranges { IfOk result IsMadeInRange }
    ensures refused { result ≡ Err WordsFault.Refused → made_read (rows_of (found_of matches.now)) ≡ None }
{
    let Some(seed) = matches.get_str("SEED") else {
        return Err(WordsFault::Refused);
    };
    let Some(devices) = matches.get_str("DEVICES") else {
        return Err(WordsFault::Refused);
    };
    let Some(fixes) = matches.get_str("FIXES") else {
        return Err(WordsFault::Refused);
    };
    asked(seed, devices, fixes)
}

/// What the words of `made` ask for, of which the first is the command's own.
pub(crate) fn read_made(alloc: Global, words: &[String]) -> Result<MadeWords, WordsFault>
    ensures read { IfOk result (λ m. made_of (map string_bytes words.now) ≡ Some (made_value_of m)) }
    ensures ranges { IfOk result IsMadeInRange }
    ensures refused { result ≡ Err WordsFault.Refused → made_of (map string_bytes words.now) ≡ None }
{
    let matches = made_matches(alloc, words)?;
    asked_by(&matches)
}
