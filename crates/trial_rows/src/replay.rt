//! Trials played again over the tracker and the server's session themselves: what each connection carried, how it ended for both, and
//! what the media hold.

use crate::hosts::{host_with, run_line};
use acquisition::{Acquirer, Settings};
use arrayvec::ArrayVec;
use avl_values::{Failed, Imei, NoMemory, Rec};
use flash_ring::Ring;
use fmb_host::{Host, MemoryHost};
use io_operands::IoSetting;
use journey_script::{Fix, Script, ScriptLine, read_script, write_script};
use links::MemoryLink;
use made_script::make_script;
use medium::{Medium, MemoryBench};
use record_codecs::is_record;
use session_core::{ImeiList, Known, NoOrders, SessionEnd, serve_link};
use shelf::Shelf;
use std::alloc::Global;
use std::sync::Wait;
use std::thread::Threads;
use tracker_session::{Losses, PlainShell, Tracker};
use trial_device::end_of;
use trial_model::{ConnectionOutcome, Outcome, ServerEnd};

/// A list of lost records that nobody reads.
#[derive(Drop)]
struct Unread;

impl Losses for Unread {
    ghost use Rattle.std.specs.Prelude.{None};

    ghost state = { λ l. record { listed = None; faults = 0 } };

    fn faults(&self) -> u64 {
        0
    }

    fn list(&mut self, _rec: &Rec) -> Result<(), Failed> {
        Ok(())
    }
}

/// A device of the test's own.
#[derive(Drop)]
struct Device {
    imei: Imei,
    is_known: bool,
    acquirer: Acquirer,
    tracker: Tracker<MemoryBench>,
}

/// Both ends of the test's own.
#[derive(Drop)]
struct Ends {
    devices: Vec<Device>,
    shelf: Shelf<MemoryBench>,
    known: Known,
    connections: usize,
}

// The settings of a device among a script's lines.
fn settings_of(script: &Script, imei: Imei) -> ArrayVec<IoSetting, 32> {
    let mut settings = ArrayVec::new();
    for i in 0..script.len() {
        if let ScriptLine::Setting {
            imei: whose,
            setting,
        } = script.line_at(i)
        {
            if whose == imei && !settings.is_full() {
                settings.push(setting);
            }
        }
    }
    settings
}

// A tracker over a ring of N slots on a bench of its own.
fn ring_of(alloc: Global, slots: u16) -> Option<Ring<MemoryBench>> {
    if slots < 1 || slots > 4096 {
        return None;
    }
    let mut bench = MemoryBench::new(alloc).ok()?;
    bench.reserve(272 * slots as u64).ok()?;
    Ring::format(&mut bench, slots).ok()?;
    Ring::open(alloc, bench, slots).ok()
}

// The device of a line, if it is a `device` line.
fn device_of(alloc: Global, script: &Script, line: &ScriptLine) -> Option<Device> {
    let ScriptLine::Device {
        imei,
        codec,
        slots,
        order,
        period,
        distance,
        angle,
        speed,
        known,
    } = line
    else {
        return None;
    };
    let ios = settings_of(script, *imei);
    let settings = Settings::check(
        *codec,
        *period,
        *distance,
        *angle,
        *speed,
        ios.as_slice(),
    ).ok()?;
    Some(Device {
        imei: *imei,
        is_known: *known,
        acquirer: Acquirer::new(settings),
        tracker: Tracker::new(*imei, ring_of(alloc, *slots)?, *order),
    })
}

// The script's devices, with empty flashes.
fn devices_of(alloc: Global, script: &Script) -> Option<Vec<Device>> {
    let mut devices = Vec::new(alloc);
    for i in 0..script.len() {
        if let Some(device) = device_of(alloc, script, &script.line_at(i)) {
            devices.push(device).ok()?;
        }
    }
    Some(devices)
}

// Those that the server knows.
fn known_of(alloc: Global, devices: &[Device]) -> Result<Known, NoMemory> {
    let mut known = ImeiList::new(alloc);
    for device in devices {
        if device.is_known {
            known.push(device.imei)?;
        }
    }
    Ok(Known::Listed(known))
}

// Both ends at power-up.
fn ends_of(alloc: Global, script: &Script) -> Option<Ends> {
    let devices = devices_of(alloc, script)?;
    let known = known_of(alloc, devices.as_slice()).ok()?;
    Some(Ends {
        devices,
        shelf: Shelf::open(alloc, MemoryBench::new(alloc).ok()?).ok()?,
        known,
        connections: 0,
    })
}

// Keeps a record.
fn keep(tracker: &mut Tracker<MemoryBench>, rec: &Rec) -> Option<()> {
    if tracker.is_down() || !is_record(rec.codec, rec.bytes.as_slice()) {
        return None;
    }
    tracker.keep(rec, &mut Unread).ok()?;
    Some(())
}

// A `fix` line.
fn fix(device: &mut Device, fix: &Fix) -> Option<()> {
    if !device.acquirer.settings().fits(fix) {
        return None;
    }
    let records = device.acquirer.fix(fix);
    for rec in records.as_slice() {
        keep(&mut device.tracker, rec)?;
    }
    Some(())
}

// A session's end, in the words of an outcome.
fn server_end(end: SessionEnd) -> Option<ServerEnd> {
    match end {
        SessionEnd::Ended => Some(ServerEnd::Ended),
        SessionEnd::EndedInside { have } => Some(ServerEnd::EndedInside { have }),
        SessionEnd::Unknown { imei } => Some(ServerEnd::Unknown { imei }),
        _ => None,
    }
}

// The device's end of a connection over a link that gives what was delivered to it: whether it writes what was sent, and ends as it did.
fn is_rounded(
    alloc: Global,
    tracker: &mut Tracker<MemoryBench>,
    log: &ConnectionOutcome,
    most: u32,
) -> Option<bool> {
    if tracker.is_down() || most == 0 {
        return None;
    }
    let delivered = log.down.as_slice().get(..log.down_given as usize)?;
    let mut link = MemoryLink::new(alloc, delivered, 64, 100_000, &[]).ok()?;
    let ended = tracker.round(&mut link, &mut PlainShell, most);
    Some(link.written() == log.up.as_slice() && end_of(ended) == log.device)
}

// The same of the server's end.
fn is_served(
    alloc: Global,
    shelf: &mut Shelf<MemoryBench>,
    known: &Known,
    log: &ConnectionOutcome,
) -> Option<bool> {
    let delivered = log.up.as_slice().get(..log.up_given as usize)?;
    let mut link = MemoryLink::new(alloc, delivered, 64, 100_000, &[]).ok()?;
    let served = serve_link(alloc, &mut link, shelf, known, &mut NoOrders);
    Some(link.written() == log.down.as_slice() && server_end(served.end) == Some(log.server))
}

// A `round` or `drain` line.
fn connect(alloc: Global, ends: &mut Ends, outcome: &Outcome, imei: Imei, most: u32) -> Option<()> {
    if ends.connections >= outcome.connections() {
        return None;
    }
    let log = outcome.connection_at(ends.connections);
    ends.connections += 1;
    let device = ends.devices.iter_mut().find(|device| device.imei == imei)?;
    let is_same = is_rounded(alloc, &mut device.tracker, log, most)?
        && is_served(alloc, &mut ends.shelf, &ends.known, log)?;
    if is_same { Some(()) } else { None }
}

// Plays a line again; None where something differs, or the line isn't one of those that are played again.
fn step(alloc: Global, ends: &mut Ends, outcome: &Outcome, line: &ScriptLine) -> Option<()> {
    match line {
        ScriptLine::Device { .. } => Some(()),
        ScriptLine::Setting { .. } => Some(()),
        ScriptLine::Fix { imei, fix: given } => {
            let device = ends.devices.iter_mut().find(|device| device.imei == *imei)?;
            fix(device, given)
        }
        ScriptLine::Round { imei, .. } => connect(alloc, ends, outcome, *imei, 1),
        ScriptLine::Drain { imei, .. } => connect(alloc, ends, outcome, *imei, u32::MAX),
        _ => None,
    }
}

// Whether the media that came back to the host hold what the test's own do, byte for byte.
fn are_same_media(ends: Ends, host: &MemoryHost) -> bool {
    let Ends { devices, shelf, .. } = ends;
    let back = host.benches_back();
    let mut is_same = back.len() == 1 + devices.len()
        && back
            .first()
            .is_some_and(|bench| bench.content() == shelf.into_medium().content());
    for (i, device) in devices.into_iter().enumerate() {
        let flash = device.tracker.into_ring().into_medium();
        is_same = is_same
            && back
                .get(1 + i)
                .is_some_and(|bench| bench.content() == flash.content());
    }
    is_same
}

// Plays a text as a trial, and then again: whether all is as the trial's outcome says.
fn is_replayed<R: Threads + Wait + Sync>(rt: &R, alloc: Global, text: &[u8]) -> Option<bool> {
    let mut host = host_with(alloc, text)?;
    if run_line(rt, alloc, &mut host, "trial script --brief")? != 0 {
        return None;
    }
    let script = read_script(alloc, text).ok()?;
    let outcome = host.outcome()?;
    let mut ends = ends_of(alloc, &script)?;
    for i in 0..script.len() {
        step(alloc, &mut ends, outcome, &script.line_at(i))?;
    }
    let is_whole = ends.connections == outcome.connections();
    Some(is_whole && are_same_media(ends, &host))
}

// A made script's text without the lines that cut, delay or cover something.
fn made_text(alloc: Global) -> Option<Vec<u8>> {
    let script = make_script(alloc, 1, 2, 100).ok()?;
    let text = write_script(alloc, &script).ok()?;
    let mut plain = Vec::new(alloc);
    for line in text.as_slice().split(|b| *b == b'\n') {
        let is_left_out = line.starts_with(b"late ")
            || line.starts_with(b"close ")
            || line.starts_with(b"power ")
            || line.starts_with(b"fuse ");
        if !is_left_out {
            plain.extend_from_slice(line).ok()?;
            plain.push(b'\n').ok()?;
        }
    }
    Some(plain)
}

#[test]
fn written_trials_are_the_same_over_links(rt: HostRuntime) {
    let texts: [&str; 4] = [
        "\
device 356307042441013 8 16 oldest 1000 0 0 0 known
fix 356307042441013 1560161086000 0 0 0 0 0 0 0
fix 356307042441013 1560161087000 0 0 0 0 0 0 0
fix 356307042441013 1560161088000 0 0 0 0 0 0 0
round 356307042441013 7 - -
",
        "\
device 356307042441013 8 16 oldest 1000 0 0 0 known
fix 356307042441013 1560161086000 0 0 0 0 0 0 0
round 356307042441013 64 - 4
round 356307042441013 64 - -
",
        "\
device 356307042441013 8 2 oldest 1000 0 0 0 known
fix 356307042441013 1560161086000 0 0 0 0 0 0 0
fix 356307042441013 1560161087000 0 0 0 0 0 0 0
fix 356307042441013 1560161088000 0 0 0 0 0 0 0
drain 356307042441013 64
",
        "\
device 356307042441013 8 16 oldest 1000 0 0 0 stranger
fix 356307042441013 1560161086000 0 0 0 0 0 0 0
round 356307042441013 64 - -
",
    ];
    for text in texts {
        assert!(rt; is_replayed(&rt, rt.alloc(), text.as_bytes()) == Some(true));
    }
}

#[test]
fn made_trial_is_the_same_over_links(rt: HostRuntime) {
    let text = made_text(rt.alloc()).expect(&rt, "memory");
    assert!(rt; is_replayed(&rt, rt.alloc(), text.as_slice()) == Some(true));
}
