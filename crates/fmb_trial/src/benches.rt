//! The benches of a trial, taken from a host and given back.
ghost use Rattle.std.specs.Prelude.{◌≡◌, ◌≤◌, ℕ, suc, List, [], ◌∷◌, IfOk, OnErr, is_some, length, map};
ghost use Rattle.std.specs.List.{All};
ghost use Rattle.fmb_host.specs.Host.{HostView};
ghost use Rattle.fmb_trial.specs.Benches.{PassesNew, SpendsBenches};
ghost use Rattle.trial_loop.specs.Starts.{IsNewBench};
ghost use Rattle.trial_model.specs.Script.{device_on, devices_of, lines_of};
ghost use Rattle.trial_model.specs.declared.script.ScriptLine.{ScriptLine as Line};

use avl_values::NoMemory;
use fmb_host::Host;
use journey_script::{Script, ScriptLine};
use std::alloc::Global;
use trial_loop::Benches;

// Whether a line is a `device` line.
fn is_device_line(line: &ScriptLine) -> bool
    ensures { (lines : List Line) → is_some (device_on lines line.now) ≡ result }
{
    matches!(line, ScriptLine::Device { .. })
}

/// How many devices a script has.
pub(crate) fn device_count(script: &Script) -> usize
    ensures { result ≡ length (devices_of (lines_of script.now)) }
{
    let mut count = 0;
    'lines: for i in 0..script.len() {
        if is_device_line(&script.line_at(i)) {
            count += 1;
        }
    }
    count
}

/// Takes a new bench for the server and one for each device. Where memory runs out, those that were handed out don't go back.
pub(crate) fn take_benches<H: Host>(
    alloc: Global,
    host: &mut H,
    devices: usize,
) -> Result<Benches<H::Rig>, NoMemory>
    ensures server { IfOk result (λ b. IsNewBench (H.Rig.state b.server)) }
    ensures devices { IfOk result (λ b. All (λ d. IsNewBench (H.Rig.state d)) b.devices.items) }
    ensures count { IfOk result (λ b. length b.devices.items ≡ devices) }
    ensures taken { IfOk result (λ b. PassesNew (suc devices) [] (H.view host.old).benches (H.view host.new).benches) }
    ensures no_memory { OnErr result (SpendsBenches (H.view host.old) (H.view host.new)) }
    ensures others { H.view host.new ≡ record (H.view host.old) { benches = (H.view host.new).benches } }
{
    let server = host.bench()?;
    let mut benches = Vec::new(alloc);
    'devices: for _done in 0..devices {
        benches.push(host.bench()?)?;
    }
    Ok(Benches {
        server,
        devices: benches,
    })
}

/// Gives the benches back, the server's first, and then the devices' in their order.
pub(crate) fn give_back<H: Host>(host: &mut H, benches: Benches<H::Rig>)
    ensures returned { (given : ℕ) (start : HostView) → suc (length benches.devices.items) ≤ given → PassesNew given [] start.benches (H.view host.old).benches
        → PassesNew given (H.Rig.state benches.server ∷ map H.Rig.state benches.devices.items) start.benches (H.view host.new).benches }
    ensures others { H.view host.new ≡ record (H.view host.old) { benches = (H.view host.new).benches } }
{
    let Benches { server, devices } = benches;
    host.bench_back(server);
    for bench in devices {
        host.bench_back(bench);
    }
}
