//! A trial before its first line.
ghost use Rattle.std.specs.Prelude.{◌≡◌, ◌≤◌, ℕ, None, Some, length, slice_get, IfOk};
ghost use Rattle.std.specs.List.{All, AllZip};
ghost use Rattle.acquisition.specs.Checking.{setting_fault};
ghost use Rattle.journey_script.specs.Laws.{AreDistinct};
ghost use Rattle.trial_device.specs.Starting.{StartsSide};
ghost use Rattle.trial_loop.specs.Loops.{KnowsMarked};
ghost use Rattle.trial_loop.specs.Starts.{IsNewBench, Starts};
ghost use Rattle.trial_model.specs.Script.{Device, devices_of, lines_of};
ghost use Rattle.trial_play.specs.Starting.{IsFreshShelf};

use crate::connections::Connections;
use crate::enrolling::{Enrolled, enroll};
use crate::playing::Benches;
use crate::state::Trial;
use acquisition::Settings;
use archive_journal::ArchiveFault;
use avl_values::NoMemory;
use journey_script::Script;
use medium_model::Bench;
use session_core::{ImeiList, Known};
use shelf::Shelf;
use std::alloc::Global;
use trial_device::DeviceSide;

// The IMEIs of the devices that are marked as known.
fn known_of(alloc: Global, devices: &[Enrolled]) -> Result<Known, NoMemory>
    ensures { AreDistinct devices.now → IfOk result (KnowsMarked devices.now) }
{
    let mut known = ImeiList::new(alloc);
    for device in devices {
        if device.known {
            known.push(device.imei)?;
        }
    }
    Ok(Known::Listed(known))
}

// A device's side at power-up.
fn side_of<B: Bench>(alloc: Global, device: &Enrolled, bench: B) -> Result<DeviceSide<B>, NoMemory>
    requires some { 1 ≤ device.now.slots }
    requires few { device.now.slots ≤ 4096 }
    requires settings { setting_fault device.now.codec device.now.settings ≡ None }
    requires bench { IsNewBench (B.state bench) }
    ensures { IfOk result (StartsSide device.now) }
{
    let checked = Settings::check(
        device.codec,
        device.period,
        device.distance,
        device.angle,
        device.speed,
        device.settings.as_slice(),
    );
    let Ok(settings) = checked else {
        unreachable!()
    };
    DeviceSide::new(
        alloc,
        bench,
        device.imei,
        settings,
        device.order,
        device.slots,
        device.known,
    )
}

// The sides of all devices, each over its bench.
fn sides_of<B: Bench>(
    alloc: Global,
    devices: &[Enrolled],
    benches: Vec<B>,
) -> Result<Vec<DeviceSide<B>>, NoMemory>
    requires slots { (n : ℕ) (d : Device) → slice_get devices.now n ≡ Some d → (1 ≤ d.slots) × (d.slots ≤ 4096) }
    requires settings { (n : ℕ) (d : Device) → slice_get devices.now n ≡ Some d → setting_fault d.codec d.settings ≡ None }
    requires benches { All (λ (b : B). IsNewBench (B.state b)) benches.items }
    requires count { length benches.items ≡ length devices.now }
    ensures { IfOk result (λ sides. AllZip StartsSide devices.now sides.items) }
{
    let mut sides = Vec::new(alloc);
    for bench in benches {
        let device = &devices[sides.len()];
        sides.push(side_of(alloc, device, bench)?)?;
    }
    Ok(sides)
}

// An archive without entries.
fn open_archive<B: Bench>(alloc: Global, bench: B) -> Result<Shelf<B>, NoMemory>
    requires { IsNewBench (B.state bench) }
    ensures { IfOk result IsFreshShelf }
{
    match Shelf::open(alloc, bench) {
        Ok(shelf) => Ok(shelf),
        Err((ArchiveFault::NoMemory, _bench)) => Err(NoMemory),
        Err((ArchiveFault::NotArchive, _bench)) => unreachable!(),
        Err((ArchiveFault::MediumFault, _bench)) => unreachable!(),
    }
}

/// The devices of a script at power-up, each over its bench, and a server over its own, with an archive that has no entries.
pub fn start<B: Bench>(
    alloc: Global,
    script: &Script,
    benches: Benches<B>,
) -> Result<Trial<B>, NoMemory>
    requires server { IsNewBench (B.state benches.server) }
    requires devices { All (λ (b : B). IsNewBench (B.state b)) benches.devices.items }
    requires count { length benches.devices.items ≡ length (devices_of (lines_of script.now)) }
    ensures { IfOk result (Starts (devices_of (lines_of script.now))) }
{
    let enrolled = enroll(alloc, script)?;
    let known = known_of(alloc, enrolled.as_slice())?;
    let Benches { server, devices } = benches;
    let sides = sides_of(alloc, enrolled.as_slice(), devices)?;
    let shelf = open_archive(alloc, server)?;
    Ok(Trial {
        sides,
        connections: Connections::new(alloc),
        shelf,
        known,
        fuse: None,
        alloc,
    })
}
