//! What made trials keep, looked at in their outcomes.

use crate::hosts::{host_with, run_line};
use avl_values::{Codec, Rec, WideRec};
use fmb_host::{Host, MemoryHost};
use std::alloc::Global;
use std::sync::Wait;
use std::thread::Threads;
use trial_model::DeviceOutcome;

// How often a record is in a list.
fn count(list: &[Rec], codec: Codec, bytes: &[u8]) -> usize {
    list.iter()
        .filter(|rec| rec.codec == codec && rec.bytes.as_slice() == bytes)
        .count()
}

// The same of a list of the archive.
fn count_wide(list: &[WideRec], codec: Codec, bytes: &[u8]) -> usize {
    list.iter()
        .filter(|rec| rec.codec() == codec && rec.bytes() == bytes)
        .count()
}

// Whether a list holds acquired records alone, each once.
fn is_once(list: &[Rec], acquired: &[Rec]) -> bool {
    list.iter().all(|rec| {
        count(list, rec.codec, rec.bytes.as_slice()) == 1
            && count(acquired, rec.codec, rec.bytes.as_slice()) == 1
    })
}

fn is_once_wide(list: &[WideRec], acquired: &[Rec]) -> bool {
    list.iter().all(|rec| {
        count_wide(list, rec.codec(), rec.bytes()) == 1
            && count(acquired, rec.codec(), rec.bytes()) == 1
    })
}

// Whether a record is in one of the lists of where records can be.
fn is_somewhere(rec: &Rec, device: &DeviceOutcome) -> bool {
    let bytes = rec.bytes.as_slice();
    count(device.flash.as_slice(), rec.codec, bytes) == 1
        || count_wide(device.archived.as_slice(), rec.codec, bytes) == 1
        || count(device.cut.as_slice(), rec.codec, bytes) == 1
        || count(device.overwritten.as_slice(), rec.codec, bytes) == 1
}

// Whether each list has acquired records alone, each once, no acquired record is lost, and the flash is empty, as two drains leave it.
fn is_kept(device: &DeviceOutcome) -> bool {
    let acquired = device.acquired.as_slice();
    is_once(acquired, acquired)
        && is_once(device.cut.as_slice(), acquired)
        && is_once(device.overwritten.as_slice(), acquired)
        && is_once_wide(device.archived.as_slice(), acquired)
        && acquired.iter().all(|rec| is_somewhere(rec, device))
        && device.flash.is_empty()
}

// Plays the made trial of a seed, and gives the host back.
fn played<R: Threads + Wait + Sync>(rt: &R, alloc: Global, seed: u64) -> Option<MemoryHost> {
    let mut host = host_with(alloc, b"")?;
    let devices = seed % 64 + 1;
    let line = format!(in alloc; "made {seed} {devices} 60").ok()?;
    let status = run_line(rt, alloc, &mut host, line.as_str())?;
    if status == 0 { Some(host) } else { None }
}

#[test]
fn made_trials_lose_nothing(rt: HostRuntime) {
    for seed in 0..200u64 {
        let host = played(&rt, rt.alloc(), seed).expect(&rt, "status 0");
        let outcome = host.outcome().expect(&rt, "an outcome");
        assert_eq!(rt; outcome.devices() as u64, seed % 64 + 1);
        for i in 0..outcome.devices() {
            assert!(rt; is_kept(outcome.device_at(i)), "seed {seed}, device {i}");
        }
    }
}
