//! A script that is played on the benches of a host.
ghost use Rattle.std.specs.Prelude.{◌≡◌, IfOk, OnErr};
ghost use Rattle.fmb_trial.specs.Benches.{SpendsBenches};
ghost use Rattle.fmb_trial.specs.Played.{IsTrialOf, RanScript, Reports};

use crate::benches::{device_count, give_back, take_benches};
use avl_values::{Failed, NoMemory};
use fmb_host::Host;
use fmb_io::{DONE, SINK_FAULT, give_up, print};
use fmb_text::report_text;
use journey_script::Script;
use std::alloc::Global;
use trial_loop::trial;
use trial_model::Outcome;

// Plays a script on benches of the host, and gives them back.
fn play<H: Host>(alloc: Global, host: &mut H, script: &Script) -> Result<Outcome, NoMemory>
    ensures played { IfOk result (λ outcome. IsTrialOf script.now outcome (H.view host.old) (H.view host.new)) }
    ensures no_memory { OnErr result (SpendsBenches (H.view host.old) (H.view host.new)) }
    ensures others { H.view host.new ≡ record (H.view host.old) { benches = (H.view host.new).benches } }
{
    let benches = take_benches(alloc, host, device_count(script))?;
    let (outcome, benches) = trial(alloc, script, benches)?;
    give_back(host, benches);
    Ok(outcome)
}

// Gives the host the outcome, and prints its report, which is built whole before.
fn finish<H: Host>(alloc: Global, host: &mut H, outcome: Outcome, brief: bool) -> u8
    ensures { Reports outcome brief result (H.view host.old) (H.view host.new) }
{
    let Ok(text) = report_text(alloc, &outcome, brief) else {
        return give_up(host);
    };
    host.outcome_back(outcome);
    match print(host, text.as_slice()) {
        Ok(()) => DONE,
        Err(Failed) => SINK_FAULT,
    }
}

/// Plays a script on benches of the host, gives them back, has the host keep the outcome, and prints its report. Returns the status.
pub(crate) fn run_script<H: Host>(alloc: Global, host: &mut H, script: &Script, brief: bool) -> u8
    ensures { RanScript script.now brief result (H.view host.old) (H.view host.new) }
{
    match play(alloc, host, script) {
        Ok(outcome) => finish(alloc, host, outcome, brief),
        Err(NoMemory) => give_up(host),
    }
}
