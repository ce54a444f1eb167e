//! A whole trial.
ghost use Rattle.std.specs.Prelude.{◌≡◌, [], length, map, take, IfOk};
ghost use Rattle.std.specs.List.{All};
ghost use Rattle.journey_script.specs.Grammar.{IsScript};
ghost use Rattle.trial_loop.specs.Loops.{LoopState};
ghost use Rattle.trial_loop.specs.Starts.{IsNewBench, Starts};
ghost use Rattle.trial_model.specs.Kept.{Kept};
ghost use Rattle.trial_model.specs.Script.{devices_of, lines_of};
ghost use Rattle.trial_play.specs.OnMedia.{KeptOnMedia};
ghost use Rattle.trial_play.specs.Plays.{PlaysAll};

use crate::outcome::finish;
use crate::starting::start;
use crate::state::Trial;
use avl_values::NoMemory;
use journey_script::Script;
use medium_model::Bench;
use std::alloc::Global;
use trial_model::Outcome;

/// The media of a trial: one for the server, and one for each device in the order of the script's `device` lines.
#[derive(Drop)]
pub struct Benches<B: Bench> {
    pub server: B,
    pub devices: Vec<B>,
}

// Plays all lines of a script, one after the other.
fn play_all<B: Bench>(trial: Trial<B>, script: &Script) -> Result<Trial<B>, NoMemory>
    requires { Starts (devices_of (lines_of script.now)) trial }
    ensures is_script { IsScript script.now }
    ensures plays { IfOk result (λ (t : LoopState). PlaysAll (devices_of (lines_of script.now)) [] (lines_of script.now) trial.trial t.trial) }
{
    let mut trial = trial;
    for i in 0..script.len() {
        trial = trial.play(&script.line_at(i))?;
    }
    Ok(trial)
}

/// Plays a script over benches that are empty and not armed, one for each device and one for the server, and hands the benches back.
///
/// Whatever the script cuts, breaks, resends, interleaves or powers off, its outcome has all that every trial keeps, and the benches hold
/// what the outcome tells. NoMemory is the only other result: a growth of memory was refused, and there is no outcome.
pub fn trial<B: Bench>(
    alloc: Global,
    script: &Script,
    benches: Benches<B>,
) -> Result<(Outcome, Benches<B>), NoMemory>
    requires server { IsNewBench (B.state benches.server) }
    requires devices { All (λ (b : B). IsNewBench (B.state b)) benches.devices.items }
    requires count { length benches.devices.items ≡ length (devices_of (lines_of script.now)) }
    ensures kept { IfOk result (λ r. Kept script.now r.0) }
    ensures on_media { IfOk result (λ r. KeptOnMedia script.now r.0 (record { server = B.state r.1.server; devices = map B.state r.1.devices.items })) }
{
    let trial = start(alloc, script, benches)?;
    let trial = play_all(trial, script)?;
    finish(trial)
}
