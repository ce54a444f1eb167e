//! The power lost at each call of a medium in turn, with each tear, before a line of a script is done.
use crate::hosts::{host_with, run_line};
use fmb_host::Host;
use std::alloc::Global;
use std::sync::Wait;
use std::thread::Threads;
use trial_model::{DeviceEnd, Outcome, ServerEnd};

const TEARS: [&str; 5] = ["keep", "zero", "half", "new", "open"];

/// A device with 16 slots.
const ROOM: &str = "device 356307042441013 8 16 oldest 1000 0 0 0 known\n";

/// A device with one slot, which holds a record.
const FULL: &str =
    "device 356307042441013 8 1 oldest 1000 0 0 0 known\nfix 356307042441013 1560161086000 0 0 0 0 0 0 0\n";

/// A device with three records.
const THREE: &str =
    "device 356307042441013 8 16 oldest 1000 0 0 0 known\nfix 356307042441013 1560161086000 0 0 0 0 0 0 0\nfix 356307042441013 1560161087000 0 0 0 0 0 0 0\nfix 356307042441013 1560161088000 0 0 0 0 0 0 0\n";

/// The same once they are archived, and their count is lost.
const ARCHIVED: &str =
    "device 356307042441013 8 16 oldest 1000 0 0 0 known\nfix 356307042441013 1560161086000 0 0 0 0 0 0 0\nround 356307042441013 7 - 1\n";

const FIX: &str = "fix 356307042441013 1560161089000 0 0 0 0 0 0 0\n";

const ROUND: &str = "round 356307042441013 7 - -\n";

/// The lines before, whose power is lost, and the line that is stopped.
#[derive(Clone, Copy)]
struct Stop {
    before: &'static str,
    who: &'static str,
    line: &'static str,
}

// Whether a record was cut, or a connection's end tells of a medium that failed.
fn is_cut(outcome: &Outcome) -> bool {
    for i in 0..outcome.devices() {
        if !outcome.device_at(i).cut.is_empty() {
            return true;
        }
    }
    for i in 0..outcome.connections() {
        let connection = outcome.connection_at(i);
        if connection.device == DeviceEnd::MediumFault {
            return true;
        }
        if let ServerEnd::MediumFault { .. } = connection.server {
            return true;
        }
    }
    false
}

// The script whose line is stopped after N calls.
fn script_of(alloc: Global, stop: &Stop, calls: u8, tear: &str) -> Option<Vec<u8>> {
    let mut text = Vec::new(alloc);
    text.extend_from_slice(stop.before.as_bytes()).ok()?;
    text.extend_from_slice(b"fuse ").ok()?;
    text.extend_from_slice(stop.who.as_bytes()).ok()?;
    text.extend_from_slice(&[b' ', b'0' + calls % 10, b' '])
        .ok()?;
    text.extend_from_slice(tear.as_bytes()).ok()?;
    text.push(b'\n').ok()?;
    text.extend_from_slice(stop.line.as_bytes()).ok()?;
    Some(text)
}

// Whether something is cut in the trial of a script.
fn cuts<R: Threads + Wait + Sync>(rt: &R, alloc: Global, script: &[u8]) -> Option<bool> {
    let mut host = host_with(alloc, script)?;
    if run_line(rt, alloc, &mut host, "trial script")? != 0 {
        return None;
    }
    Some(is_cut(host.outcome()?))
}

// After how many calls the line is done.
fn calls_of<R: Threads + Wait + Sync>(
    rt: &R,
    alloc: Global,
    stop: &Stop,
    tear: &str,
) -> Option<u8> {
    for calls in 0..9 {
        let script = script_of(alloc, stop, calls, tear)?;
        if !cuts(rt, alloc, &script)? {
            return Some(calls);
        }
    }
    None
}

// A store takes four calls, and six where the ring is full; a release of three records four. On the server an entry takes four, and a
// frame of archived records none.
#[test]
fn the_power_is_lost_at_each_call(rt: HostRuntime) {
    let rows = [
        (ROOM, "356307042441013", FIX, 4),
        (FULL, "356307042441013", FIX, 6),
        (THREE, "356307042441013", ROUND, 4),
        (THREE, "server", ROUND, 4),
        (ARCHIVED, "server", ROUND, 0),
    ];
    for (before, who, line, wanted) in rows {
        for tear in TEARS {
            let stop = Stop { before, who, line };
            let calls = calls_of(&rt, rt.alloc(), &stop, tear);
            assert_eq!(rt; calls, Some(wanted), "{who} {tear}");
        }
    }
}
