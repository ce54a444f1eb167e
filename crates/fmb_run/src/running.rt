ghost use Rattle.std.specs.Prelude.{◌≡◌, ◌⊎◌, None, false, map, string_bytes, true};
ghost use Rattle.fmb_host.specs.Host.{AreSmall};
ghost use Rattle.fmb_run.specs.Asked.{IfDrive, IfMade, IfServe, IfShow, IfTrial, RanOut, RefusesWords, known_of};
ghost use Rattle.fmb_run.specs.Show.{RanShow, ShowRefuses, ShowShows};
ghost use Rattle.fmb_drive.specs.Drive.{DriveDrives, DriveRefuses, DriveSpares, RanDrive};
ghost use Rattle.fmb_serve.specs.Serve.{RanServe, ServeRefuses, ServeServes};
ghost use Rattle.fmb_trial.specs.Played.{PlaysScript, RanScript};
ghost use Rattle.fmb_trial.specs.Ran.{RanTrial, TrialPlays, TrialRefuses};
ghost use Rattle.fmb_words.specs.PlainWords.{names_command};
ghost use Rattle.fmb_words.specs.Words.{words_of};
ghost use Rattle.made_script.specs.Made.{made};
ghost use Rattle.session_core.specs.Knowing.{knows};

use crate::serving::serve_asked;
use crate::showing::run_show;
use doors::Door;
use fmb_drive::run_drive;
use fmb_host::Host;
use fmb_io::{HOST_FAULT, REFUSED_WORDS, give_up, say};
use fmb_trial::{run_made, run_trial};
use fmb_words::{Words, WordsFault, read_words};
use std::alloc::Global;
use std::sync::Wait;
use std::thread::Threads;

/// Opens a text, prints as a capture what is in it, and gives it back. Returns the status.
fn show_file<H: Host>(alloc: Global, host: &mut H, name: &str) -> u8
    requires { AreSmall (H.view host.old).counts }
    ensures ran { RanShow name.now result (H.view host.old) (H.view host.new) }
    ensures refuses { ShowRefuses result (H.view host.old) (H.view host.new) }
    ensures shows { ShowShows result (H.view host.old) (H.view host.new) }
{
    let Ok(mut source) = host.open_text(name) else {
        say(host, b"host fault\n");
        return HOST_FAULT;
    };
    let status = run_show(alloc, &mut source, host.out());
    host.text_back(source);
    status
}

/// Does what the words after the program's name ask for: `show` or `trial` and the name of a file, `made` with a seed and how many devices
/// and fixes, `serve` with an address, the name of an archive, the IMEIs that it knows, its workers and sessions, or `drive` with an address
/// and the names of a flash and a script. Returns the status. `show` changes nothing that the host keeps. Only `serve` may wait.
pub fn run<R: Threads + Wait + Sync, H: Host>(
    rt: &R,
    alloc: Global,
    words: &[String],
    host: &mut H,
) -> u8
where
    H::File: Send,
    H::Gate: Send,
    <H::Gate as Door>::L: Send,
    requires { AreSmall (H.view host.old).counts }
    ensures among { (result ≡ 0) ⊎ (result ≡ 2) ⊎ (result ≡ 3) ⊎ (result ≡ 4) ⊎ (result ≡ 5) ⊎ (result ≡ 6) ⊎ (result ≡ 7) ⊎ (result ≡ 8) ⊎ (result ≡ 9) }

    // a trial: each status with its cause, unless memory ran out while the words were read
    ensures trial { IfTrial (words_of (map string_bytes words.now)) (λ file brief. RanTrial file brief result (H.view host.old) (H.view host.new) ⊎ RanOut result (H.view host.old) (H.view host.new)) }
    ensures trial_refuses { IfTrial (words_of (map string_bytes words.now)) (λ file brief. TrialRefuses result (H.view host.old) (H.view host.new)) }
    ensures trial_plays { IfTrial (words_of (map string_bytes words.now)) (λ file brief. TrialPlays result (H.view host.old) (H.view host.new)) }

    // a trial of a made script, in the same way
    ensures made { IfMade (words_of (map string_bytes words.now)) (λ asked. RanScript (made asked.seed asked.devices asked.fixes) true result (H.view host.old) (H.view host.new) ⊎ RanOut result (H.view host.old) (H.view host.new)) }
    ensures made_plays { IfMade (words_of (map string_bytes words.now)) (λ asked. PlaysScript result (H.view host.old) (H.view host.new)) }

    // a capture, in the same way
    ensures show { IfShow (words_of (map string_bytes words.now)) (λ file. RanShow file result (H.view host.old) (H.view host.new) ⊎ RanOut result (H.view host.old) (H.view host.new)) }
    ensures show_refuses { IfShow (words_of (map string_bytes words.now)) (λ file. ShowRefuses result (H.view host.old) (H.view host.new)) }
    ensures show_shows { IfShow (words_of (map string_bytes words.now)) (λ file. ShowShows result (H.view host.old) (H.view host.new)) }

    // a server, in the same way
    ensures serve { IfServe (words_of (map string_bytes words.now)) (λ asked. RanServe H.Gate.L.state H.Gate.L.follows (knows (known_of asked.devices)) asked.address asked.archive asked.workers asked.sessions result (H.view host.old) (H.view host.new) ⊎ RanOut result (H.view host.old) (H.view host.new)) }
    ensures serve_refuses { IfServe (words_of (map string_bytes words.now)) (λ asked. ServeRefuses result (H.view host.old) (H.view host.new)) }
    ensures serve_serves { IfServe (words_of (map string_bytes words.now)) (λ asked. ServeServes result (H.view host.old) (H.view host.new)) }

    // a device that is driven, in the same way
    ensures drive { IfDrive (words_of (map string_bytes words.now)) (λ asked. RanDrive asked.address asked.flash asked.script result (H.view host.old) (H.view host.new) ⊎ RanOut result (H.view host.old) (H.view host.new)) }
    ensures drive_refuses { IfDrive (words_of (map string_bytes words.now)) (λ asked. DriveRefuses result (H.view host.old) (H.view host.new)) }
    ensures drive_drives { IfDrive (words_of (map string_bytes words.now)) (λ asked. DriveDrives result (H.view host.old) (H.view host.new)) }
    ensures drive_spares { IfDrive (words_of (map string_bytes words.now)) (λ asked. DriveSpares result (H.view host.old)) }

    // words that ask for nothing
    ensures refused_words { words_of (map string_bytes words.now) ≡ None → RefusesWords result (H.view host.old) (H.view host.new) }
    ensures words { result ≡ 2 → words_of (map string_bytes words.now) ≡ None }
    ensures unknown_command { names_command (map string_bytes words.now) ≡ false → result ≡ 2 }
{
    match read_words(alloc, words) {
        Ok(Words::Show { file }) => show_file(alloc, host, file),
        Ok(Words::Trial(words)) => run_trial(alloc, host, words.file, words.brief),
        Ok(Words::Made(words)) => run_made(alloc, host, words.seed, words.devices, words.fixes),
        Ok(Words::Serve(words)) => serve_asked(rt, alloc, host, &words),
        Ok(Words::Drive(words)) => {
            run_drive(alloc, host, words.address, words.flash, words.script)
        }
        Err(WordsFault::Refused) => {
            say(host, b"refused words\n");
            REFUSED_WORDS
        }
        Err(WordsFault::NoMemory) => give_up(host),
    }
}
