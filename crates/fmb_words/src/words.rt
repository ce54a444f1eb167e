ghost use Rattle.std.specs.Prelude.{◌≡◌, ◌≢◌, ◌↔◌, Err, IfOk, List, None, Some, [], ◌∷◌, codes, false, map, true, string_bytes, ℕ};
ghost use Rattle.fmb_words.specs.PlainWords.{IsPlainWord, IsServeForm, names_command};
ghost use Rattle.fmb_words.specs.Values.{HasRanges, IsReadAs, MadeValue, ServeValue, drive, made, serve, show, trial, value_of};
ghost use Rattle.fmb_words.specs.Words.{made_asked, serve_asked, words_of};

use crate::drive_words::{DriveWords, read_drive};
use crate::fault::WordsFault;
use crate::file_word::read_file;
use crate::made_words::{MadeWords, read_made};
use crate::serve_words::{ServeWords, read_serve};
use crate::trial_words::{TrialWords, read_trial};
use std::alloc::Global;

/// A command line that was read.
#[derive(Debug, Drop)]
pub enum Words<'a> {
    /// Print what is in the capture of this name.
    Show { file: &'a str },
    /// Play a script as a trial.
    Trial(TrialWords<'a>),
    /// Play the script of a seed as a trial.
    Made(MadeWords),
    /// Serve an archive at an address.
    Serve(ServeWords<'a>),
    /// Play the script of this name as a device against a server.
    Drive(DriveWords<'a>),
}

// What the words ask for.
#[tactic(auto, unfolding(crate::specs::Words::words_of, crate::specs::Words::asked_of))]
fn command_of<'a>(alloc: Global, words: &'a [String]) -> Result<Words<'a>, WordsFault>
    ensures read { IfOk result (λ read. words_of (map string_bytes words.entry.now) ≡ Some (value_of read)) }
    ensures refused { result ≢ Err WordsFault.NoMemory → ((result ≡ Err WordsFault.Refused) ↔ (words_of (map string_bytes words.entry.now) ≡ None)) }
    ensures unknown { names_command (map string_bytes words.entry.now) ≡ false → result ≡ Err WordsFault.Refused }
    ensures ranges { IfOk result HasRanges }
{
    let Some(first) = words.first() else {
        return Err(WordsFault::Refused);
    };
    match first.as_str() {
        "show" => Ok(Words::Show {
            file: read_file(alloc, "show", words)?,
        }),
        "trial" => Ok(Words::Trial(read_trial(alloc, words)?)),
        "made" => Ok(Words::Made(read_made(alloc, words)?)),
        "serve" => Ok(Words::Serve(read_serve(alloc, words)?)),
        "drive" => Ok(Words::Drive(read_drive(alloc, words)?)),
        _ => Err(WordsFault::Refused),
    }
}

/// Reads the words after the program's name: `show FILE`, `trial FILE [--brief]`, `made SEED DEVICES FIXES` with a seed below 2^64, 1 to 64
/// devices and 1 to 100,000 fixes, `drive ADDRESS FLASH SCRIPT`, or `serve ADDRESS ARCHIVE [IMEI ..] --workers W --sessions K` with 1 to 64
/// workers and 1 to 100,000 sessions. The first word names the command, and clap reads the rest.
pub fn read_words<'a>(alloc: Global, words: &'a [String]) -> Result<Words<'a>, WordsFault>
    ensures read { IfOk result (λ read. words_of (map string_bytes words.entry.now) ≡ Some (value_of read)) }
    ensures ranges { IfOk result HasRanges }

    // unless memory is wanting, words are refused exactly where they ask for nothing
    ensures refused { result ≢ Err WordsFault.NoMemory → ((result ≡ Err WordsFault.Refused) ↔ (words_of (map string_bytes words.entry.now) ≡ None)) }
    ensures unknown { names_command (map string_bytes words.entry.now) ≡ false → result ≡ Err WordsFault.Refused }

    // a command and a plain word are read as they are, unless memory is wanting
    ensures plain { (file : List ℕ) → IsPlainWord file
        → (map string_bytes words.entry.now ≡ codes "show" ∷ file ∷ [] → IsReadAs (show file) result)
        × (map string_bytes words.entry.now ≡ codes "trial" ∷ file ∷ [] → IsReadAs (trial file false) result)
        × (map string_bytes words.entry.now ≡ codes "trial" ∷ file ∷ codes "--brief" ∷ [] → IsReadAs (trial file true) result) }

    // and so are plain words of `made` that are numbers in their ranges
    ensures plain_made { (seed devices fixes : List ℕ) (value : MadeValue) → IsPlainWord seed → IsPlainWord devices → IsPlainWord fixes
        → map string_bytes words.entry.now ≡ codes "made" ∷ seed ∷ devices ∷ fixes ∷ []
        → made_asked seed devices fixes ≡ Some value → IsReadAs (made value) result }

    // and so are plain words of `serve` with numbers and IMEIs in them
    ensures plain_serve { (rest : List (List ℕ)) (address archive : List ℕ) (imeis : List (List ℕ)) (workers sessions : List ℕ) (value : ServeValue)
        → map string_bytes words.entry.now ≡ codes "serve" ∷ rest → IsServeForm rest address archive imeis workers sessions
        → serve_asked address archive imeis workers sessions ≡ Some value → IsReadAs (serve value) result }

    // and so are three plain words of `drive`
    ensures plain_drive { (address flash script : List ℕ) → IsPlainWord address → IsPlainWord flash → IsPlainWord script
        → map string_bytes words.entry.now ≡ codes "drive" ∷ address ∷ flash ∷ script ∷ []
        → IsReadAs (drive (record { address = address; flash = flash; script = script })) result }
{
    command_of(alloc, words)
}
