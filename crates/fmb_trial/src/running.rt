ghost use Rattle.std.specs.Prelude.{◌≤◌, true};
ghost use Rattle.fmb_host.specs.Host.{AreSmall};
ghost use Rattle.fmb_trial.specs.Played.{PlaysScript, RanScript};
ghost use Rattle.fmb_trial.specs.Ran.{RanTrial, TrialPlays, TrialRefuses};
ghost use Rattle.made_script.specs.Made.{made};

use crate::judging::judge;
use crate::playing::run_script;
use avl_values::NoMemory;
use fmb_host::Host;
use fmb_io::{fetch, give_up, miss};
use made_script::make_script;
use std::alloc::Global;

/// Plays the script that the host opens by this name on the host's benches, and prints its report, full or brief. Returns the status.
/// All that was opened is given back, but for benches where memory ran out.
pub fn run_trial<H: Host>(alloc: Global, host: &mut H, name: &str, brief: bool) -> u8
    requires { AreSmall (H.view host.old).counts }
    ensures ran { RanTrial name.now brief result (H.view host.old) (H.view host.new) }
    ensures refuses { TrialRefuses result (H.view host.old) (H.view host.new) }
    ensures plays { TrialPlays result (H.view host.old) (H.view host.new) }
{
    match fetch(alloc, host, name) {
        Ok(text) => judge(alloc, host, text.as_slice(), brief),
        Err(missing) => miss(host, missing),
    }
}

/// Plays the script of a seed, of 1 to 64 devices and 1 to 100,000 fixes, on the host's benches, and prints its brief report. Returns the
/// status. The benches are given back, but where memory ran out.
pub fn run_made<H: Host>(alloc: Global, host: &mut H, seed: u64, devices: u8, fixes: u32) -> u8
    requires least_devices { 1 ≤ devices }
    requires most_devices { devices ≤ 64 }
    requires least_fixes { 1 ≤ fixes }
    requires most_fixes { fixes ≤ 100000 }
    ensures ran { RanScript (made seed devices fixes) true result (H.view host.old) (H.view host.new) }
    ensures plays { PlaysScript result (H.view host.old) (H.view host.new) }
{
    match make_script(alloc, seed, devices, fixes) {
        Ok(script) => run_script(alloc, host, &script, true),
        Err(NoMemory) => give_up(host),
    }
}
