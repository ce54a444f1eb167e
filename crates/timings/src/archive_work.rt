use crate::bodies::timed_body;
use avl_values::{Imei, NoMemory};
use medium::{FileMedium, Medium, MemoryMedium};
use record_codecs::read_packet;
use shelf::Shelf;
use std::alloc::Global;
use std::fs;

const RECORDS: u8 = 40;

/// Admits a body where it is one; whether it was stored.
fn admit<M: Medium>(shelf: &mut Shelf<M>, imei: Imei, bytes: &[u8]) -> bool {
    if bytes.len() > 100_000 {
        return false;
    }
    match read_packet(bytes) {
        Ok(_) => shelf.admit(imei, bytes).is_ok(),
        Err(_) => false,
    }
}

/// Admits N packets, the devices in turn, and counts those that were stored.
fn fill<M: Medium>(
    alloc: Global,
    shelf: &mut Shelf<M>,
    packets: u64,
    devices: u64,
) -> Result<u64, NoMemory> {
    let mut stored: u64 = 0;
    if devices == 0 {
        return Ok(0);
    }
    for packet in 0..packets {
        let bytes = timed_body(alloc, packet.saturating_mul(RECORDS as u64), RECORDS)?;
        if let Some(imei) = Imei::from_number(packet % devices) {
            if admit(shelf, imei, bytes.as_slice()) {
                stored = stored.saturating_add(1);
            }
        }
    }
    Ok(stored)
}

/// Fills an archive on a medium with packets of 40 records, the devices in turn, and opens it again; how many packets were stored, and
/// how many records are listed at the end.
fn archive_on<M: Medium>(
    alloc: Global,
    medium: M,
    packets: u64,
    devices: u64,
    opens: u64,
) -> Option<(u64, u64)> {
    let Ok(mut shelf) = Shelf::open(alloc, medium) else {
        return None;
    };
    let stored = fill(alloc, &mut shelf, packets, devices).ok()?;
    for _ in 0..opens {
        let Ok(again) = Shelf::open(alloc, shelf.into_medium()) else {
            return None;
        };
        shelf = again;
    }
    Some((stored, shelf.list().len() as u64))
}

/// The same in memory.
pub fn archive(alloc: Global, packets: u64, devices: u64, opens: u64) -> Option<(u64, u64)> {
    let Ok(medium) = MemoryMedium::new(alloc, &[], &[]) else {
        return None;
    };
    archive_on(alloc, medium, packets, devices, opens)
}

/// The same in the file `timed_archive` of this folder, which is removed afterwards.
pub fn archive_file(
    rt: &HostRuntime,
    packets: u64,
    devices: u64,
    opens: u64,
) -> Option<(u64, u64)> {
    let path = "timed_archive";
    let medium = FileMedium::open(rt, path).ok()?;
    let done = archive_on(rt.alloc(), medium, packets, devices, opens);
    fs::remove_file(rt, path).ok()?;
    done
}
