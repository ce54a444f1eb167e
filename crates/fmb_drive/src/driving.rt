//! A script that is driven: its text, its device, the flash, and the status.
ghost use Rattle.std.specs.Prelude.{◌≡◌, ◌⊎◌, None, codes, IfErr, IfOk};
ghost use Rattle.fmb_drive.specs.Drive.{DriveDrives, DriveRefuses, DriveSpares, RanDrive};
ghost use Rattle.fmb_drive.specs.Ending.{Drives, DrivesText, StopsOn};
ghost use Rattle.fmb_drive.specs.Scripts.{IsDevice, driver_by};
ghost use Rattle.fmb_drive.specs.Steps.{DrovePlain};
ghost use Rattle.fmb_host.specs.Host.{AreSmall};
ghost use Rattle.fmb_io.specs.Printed.{Prints};
ghost use Rattle.journey_script.specs.Drive.{drive_fault_in};
ghost use Rattle.journey_script.specs.Faults.{fault_name};
ghost use Rattle.text_streams.specs.Refused.{refused_line};

use crate::device::{Driven, device_of};
use crate::ending::end_drive;
use crate::opening::open_ring;
use crate::playing::play;
use crate::stop::Stop;
use acquisition::Acquirer;
use fmb_host::Host;
use fmb_io::{DONE, HOST_FAULT, REFUSED_TEXT, fetch, give_up, miss, say};
use journey_script::{ReadFault, Script, ScriptFault, drive_fault, read_script};
use std::alloc::Global;
use text_streams::refused_text;
use tracker_session::Tracker;

// Plays a device on a flash, which is handed back.
fn drive_on<H: Host>(
    alloc: Global,
    host: &mut H,
    address: &str,
    script: &Script,
    device: Driven,
    flash: H::File,
) -> (Result<u16, Stop>, H::File)
    requires device { IsDevice device.imei device.slots device.order device.settings script.now }
    requires small { AreSmall (H.view host.old).counts }
    ensures done { IfOk result.0 (λ open_slots. DrovePlain address.now (driver_by device) device.slots script.now (H.File.state flash) (H.File.state result.1) open_slots (H.view host.old) (H.view host.new)) }
    ensures stopped { IfErr result.0 (λ stop. StopsOn address.now stop (driver_by device) device.slots script.now (H.File.state flash) (H.File.state result.1) (H.view host.old) (H.view host.new)) }
{
    let Driven {
        imei,
        slots,
        order,
        settings,
    } = device;
    let ring = match open_ring(alloc, flash, slots) {
        Ok(ring) => ring,
        Err((stop, flash)) => return (Err(stop), flash),
    };
    let mut tracker = Tracker::new(imei, ring, order);
    let mut acquirer = Acquirer::new(settings);
    let played = play(
        alloc,
        host,
        address,
        script,
        &imei,
        &mut tracker,
        &mut acquirer,
    );
    let ended = match played {
        Ok(()) => Ok(tracker.ring().held()),
        Err(stop) => Err(stop),
    };
    (ended, tracker.into_ring().into_medium())
}

// Drives a device by a script over the flash of this name.
fn drive_device<H: Host>(
    alloc: Global,
    host: &mut H,
    address: &str,
    flash: &str,
    script: &Script,
    device: Driven,
) -> u8
    requires device { IsDevice device.imei device.slots device.order device.settings script.now }
    requires drivable { drive_fault_in script.now ≡ None }
    requires small { AreSmall (H.view host.old).counts }
    ensures { Drives address.now flash.now script.now result (H.view host.old) (H.view host.new) }
{
    let Ok(medium) = host.open_medium(flash) else {
        say(host, b"host fault\n");
        return HOST_FAULT;
    };
    let (ended, medium) = drive_on(alloc, host, address, script, device, medium);
    host.medium_back(medium);
    end_drive(alloc, host, ended)
}

// Prints the line of a script that is refused.
fn refuse<H: Host>(alloc: Global, host: &mut H, line: u32, kind: ScriptFault) -> u8
    ensures among { (result ≡ 3) ⊎ (result ≡ 9) }
    ensures refused { result ≡ 3 → Prints (refused_line line (fault_name kind)) (H.view host.old) (H.view host.new) }
    ensures no_memory { result ≡ 9 → Prints (codes "no memory\n") (H.view host.old) (H.view host.new) }
    ensures others { H.view host.new ≡ record (H.view host.old) { sink = (H.view host.new).sink } }
{
    let Ok(text) = refused_text(alloc, line, kind.name()) else {
        return give_up(host);
    };
    say(host, text.as_slice());
    REFUSED_TEXT
}

// Judges a text as a script to drive by, and does it.
fn drive_text<H: Host>(alloc: Global, host: &mut H, address: &str, flash: &str, text: &[u8]) -> u8
    requires { AreSmall (H.view host.old).counts }
    ensures { DrivesText address.now flash.now text.now result (H.view host.old) (H.view host.new) }
{
    let script = match read_script(alloc, text) {
        Ok(script) => script,
        Err(ReadFault::Line { line, kind }) => return refuse(alloc, host, line, kind),
        Err(ReadFault::NoMemory) => return give_up(host),
    };
    if let Some((line, kind)) = drive_fault(&script) {
        return refuse(alloc, host, line, kind);
    }
    match device_of(alloc, &script) {
        Ok(Some(device)) => drive_device(alloc, host, address, flash, &script, device),
        Ok(None) => DONE,
        Err(_) => give_up(host),
    }
}

// Opens the text of a script, and drives by it.
fn drive_file<H: Host>(alloc: Global, host: &mut H, address: &str, flash: &str, script: &str) -> u8
    requires { AreSmall (H.view host.old).counts }
    ensures { RanDrive address.now flash.now script.now result (H.view host.old) (H.view host.new) }
{
    match fetch(alloc, host, script) {
        Ok(text) => drive_text(alloc, host, address, flash, text.as_slice()),
        Err(missing) => miss(host, missing),
    }
}

/// Plays the script of this name against the server at an address, on the flash of this name. It opens the text of the script, the
/// flash, and a link for each `round` and `drain` line, prints what happened, and gives all back that it opened. Returns the status.
pub fn run_drive<H: Host>(
    alloc: Global,
    host: &mut H,
    address: &str,
    flash: &str,
    script: &str,
) -> u8
    requires { AreSmall (H.view host.old).counts }
    ensures ran { RanDrive address.now flash.now script.now result (H.view host.old) (H.view host.new) }
    ensures refuses { DriveRefuses result (H.view host.old) (H.view host.new) }
    ensures drives { DriveDrives result (H.view host.old) (H.view host.new) }
    ensures spares { DriveSpares result (H.view host.old) }
{
    drive_file(alloc, host, address, flash, script)
}
