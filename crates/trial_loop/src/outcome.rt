//! What is left of a trial after its last line: its outcome, and its benches.
ghost use Rattle.std.specs.Prelude.{◌≡◌, [], IfOk, false, map};
ghost use Rattle.std.specs.List.{All};
ghost use Rattle.shelf.specs.Archive.{recs_for};
ghost use Rattle.trial_device.specs.Sides.{Side};
ghost use Rattle.trial_model.specs.RecordLists.{first_places};
ghost use Rattle.trial_play.specs.OnMedia.{benches_of};
ghost use Rattle.trial_play.specs.Outcomes.{device_outcome, outcome_of};

use crate::playing::Benches;
use crate::state::Trial;
use avl_values::{Imei, NoMemory, RecList, WideList};
use medium_model::{Bench, Medium};
use shelf::Shelf;
use std::alloc::Global;
use trial_device::{DeviceParts, DeviceSide, OnceList};
use trial_model::{DeviceOutcome, Outcome};

// Records, each at its first place only.
fn each_once(alloc: Global, records: &RecList) -> Result<RecList, NoMemory>
    ensures { IfOk result (λ once. once ≡ first_places records.now) }
{
    let mut once = OnceList::new(alloc);
    for rec in records.as_slice() {
        once.add(rec)?;
    }
    Ok(once.into_list())
}

// A device's records in the archive.
fn archived<M: Medium>(alloc: Global, shelf: &Shelf<M>, imei: Imei) -> Result<WideList, NoMemory>
    ensures { IfOk result (λ list. list ≡ recs_for imei shelf.now.list) }
{
    let stored = shelf.list();
    let mut list = WideList::new(alloc);
    let places = shelf.device(imei)?;
    for place in &places {
        list.push(stored[*place as usize].rec().try_clone()?)?;
    }
    Ok(list)
}

// What became of a device, and its bench.
fn device_outcome<B: Bench>(
    alloc: Global,
    side: DeviceSide<B>,
    shelf: &Shelf<B>,
) -> Result<(DeviceOutcome, B), NoMemory>
    requires { side.ring.down ≡ false }
    ensures outcome { IfOk result (λ r. r.0 ≡ device_outcome shelf.now side) }
    ensures bench { IfOk result (λ r. B.state r.1 ≡ side.ring.medium) }
{
    let imei = side.imei();
    let DeviceParts {
        ring,
        acquired,
        cut,
        overwritten,
    } = side.into_parts();
    let flash = each_once(alloc, &ring.records(alloc)?)?;
    let archived = archived(alloc, shelf, imei)?;
    let device = DeviceOutcome {
        imei,
        acquired,
        cut,
        overwritten,
        flash,
        archived,
    };
    Ok((device, ring.into_medium()))
}

// What became of all devices, in order, and their benches. No connection is in the outcome yet.
fn device_outcomes<B: Bench>(
    alloc: Global,
    sides: Vec<DeviceSide<B>>,
    shelf: &Shelf<B>,
) -> Result<(Outcome, Vec<B>), NoMemory>
    requires { All (λ (d : Side). d.ring.down ≡ false) sides.items }
    ensures outcome { IfOk result (λ r. r.0 ≡ record { devices = map (device_outcome shelf.now) sides.items; connections = [] }) }
    ensures benches { IfOk result (λ r. map B.state r.1.items ≡ map (λ (d : Side). d.ring.medium) sides.items) }
{
    let mut outcome = Outcome::new(alloc);
    let mut benches = Vec::new(alloc);
    for side in sides {
        let (device, bench) = device_outcome(alloc, side, shelf)?;
        outcome.push_device(device)?;
        benches.push(bench)?;
    }
    Ok((outcome, benches))
}

/// The outcome of a trial, and the benches.
pub fn finish<B: Bench>(trial: Trial<B>) -> Result<(Outcome, Benches<B>), NoMemory>
    requires up { All (λ (d : Side). d.ring.down ≡ false) trial.trial.sides }
    ensures outcome { IfOk result (λ r. r.0 ≡ outcome_of trial.trial) }
    ensures benches { IfOk result (λ r. record { server = B.state r.1.server; devices = map B.state r.1.devices.items } ≡ benches_of trial.trial) }
{
    let Trial {
        sides,
        connections,
        shelf,
        alloc,
        ..
    } = trial;
    let (outcome, devices) = device_outcomes(alloc, sides, &shelf)?;
    let outcome = connections.into_logs(outcome)?;
    Ok((
        outcome,
        Benches {
            server: shelf.into_medium(),
            devices,
        },
    ))
}
