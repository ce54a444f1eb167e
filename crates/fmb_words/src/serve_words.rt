//! The words of `serve`.
ghost use Rattle.std.specs.Prelude.{◌≡◌, ◌≤◌, Err, None, Some, [], IfOk, codes, map, option_map, string_bytes, unwrap_or};
ghost use Rattle.clap.specs.Words.{FailsBy, fault_of, found_of, matches_of, rows_of};
ghost use Rattle.fmb_words.specs.Commands.{serve_app};
ghost use Rattle.fmb_words.specs.Values.{IsInRange, serve_value_of};
ghost use Rattle.fmb_words.specs.Words.{serve_asked, serve_of, serve_read};

use crate::commands::{any_values, bare, one_value, value_option};
use crate::fault::WordsFault;
use crate::number::{imeis, number};
use avl_values::Imei;
use clap::{ArgMatches, Error};
use std::alloc::Global;

/// What a server is asked for.
#[derive(Debug, Drop)]
pub struct ServeWords<'a> {
    /// The address that it listens at.
    pub address: &'a str,
    /// The name of its archive.
    pub archive: &'a str,
    /// The devices that it knows. With none it knows every device.
    pub devices: Vec<Imei>,
    /// How many connections it serves at once, 1 to 64.
    pub workers: u32,
    /// How many connections each worker serves, 1 to 100,000.
    pub sessions: u32,
}

// What clap makes of the words of `serve`, of which the first is the command's own.
fn serve_matches<'a>(alloc: Global, words: &'a [String]) -> Result<ArgMatches<'a>, Error>
    ensures kinds { FailsBy (fault_of serve_app (map string_bytes words.entry.now)) result }
    ensures rows { IfOk result (λ m. rows_of (found_of m) ≡ matches_of serve_app (map string_bytes words.entry.now)) }
{
    let address = one_value(alloc, "ADDRESS");
    let archive = one_value(alloc, "ARCHIVE");
    let imeis = any_values(alloc, "IMEI");
    let workers = value_option(alloc, "workers");
    let sessions = value_option(alloc, "sessions");
    let command = bare(alloc, "serve")
        .arg(address)?
        .arg(archive)?
        .arg(imeis)?
        .arg(workers)?
        .arg(sessions)?;
    command.try_get_matches_from(words)
}

// What these words ask for.
#[tactic(auto, unfolding(crate::specs::Words::serve_asked))]
fn asked<'a>(
    alloc: Global,
    address: &'a str,
    archive: &'a str,
    devices: &[&'a str],
    workers: &str,
    sessions: &str,
) -> Result<ServeWords<'a>, WordsFault>
    ensures read { IfOk result (λ s. serve_asked address.entry.now archive.entry.now (map (λ w. w.now) devices.now) workers.now sessions.now ≡ Some (serve_value_of s)) }
    ensures ranges { IfOk result IsInRange }
    ensures refused { result ≡ Err WordsFault.Refused → serve_asked address.entry.now archive.entry.now (map (λ w. w.now) devices.now) workers.now sessions.now ≡ None }
{
    let devices = imeis(alloc, devices)?;
    let Some(workers) = number(1, 64, workers) else {
        return Err(WordsFault::Refused);
    };
    let Some(sessions) = number(1, 100_000, sessions) else {
        return Err(WordsFault::Refused);
    };
    Ok(ServeWords {
        address,
        archive,
        devices,
        workers: workers as u32,
        sessions: sessions as u32,
    })
}

// What clap's matches ask for.
fn asked_by<'a>(alloc: Global, matches: &ArgMatches<'a>) -> Result<ServeWords<'a>, WordsFault>
    ensures read { IfOk result (λ s. serve_read (rows_of (found_of matches.now)) ≡ Some (serve_value_of s)) }
    ensures ranges { IfOk result IsInRange }
    ensures refused { result ≡ Err WordsFault.Refused → serve_read (rows_of (found_of matches.now)) ≡ None }
{
    let Some(address) = matches.get_str("ADDRESS") else {
        return Err(WordsFault::Refused);
    };
    let Some(archive) = matches.get_str("ARCHIVE") else {
        return Err(WordsFault::Refused);
    };
    let Some(workers) = matches.get_str("workers") else {
        return Err(WordsFault::Refused);
    };
    let Some(sessions) = matches.get_str("sessions") else {
        return Err(WordsFault::Refused);
    };
    let devices = matches.get_strs("IMEI").unwrap_or(&[]);
    asked(alloc, address, archive, devices, workers, sessions)
}

/// What the words of `serve` ask for, of which the first is the command's own.
pub(crate) fn read_serve<'a>(
    alloc: Global,
    words: &'a [String],
) -> Result<ServeWords<'a>, WordsFault>
    ensures read { IfOk result (λ s. serve_of (map string_bytes words.entry.now) ≡ Some (serve_value_of s)) }
    ensures ranges { IfOk result IsInRange }
    ensures refused { result ≡ Err WordsFault.Refused → serve_of (map string_bytes words.entry.now) ≡ None }
{
    let matches = serve_matches(alloc, words)?;
    asked_by(alloc, &matches)
}
