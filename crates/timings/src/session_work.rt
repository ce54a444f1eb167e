use crate::bodies::{push_frame, timed_body};
use avl_values::{Imei, NoMemory};
use frame_channel::{MemoryLink, write_login};
use medium::MemoryMedium;
use session_core::{Known, NoOrders, serve_link};
use shelf::Shelf;
use std::alloc::Global;

const RECORDS: u8 = 40;

/// A login and N frames of 40 records, all of them new, or the same in each frame.
fn stream(alloc: Global, imei: Imei, frames: u64, new: bool) -> Result<Vec<u8>, NoMemory> {
    let mut bytes = Vec::new(alloc);
    bytes.extend_from_slice(&write_login(imei))?;
    for frame in 0..frames {
        let first = if new {
            frame.saturating_mul(RECORDS as u64)
        } else {
            0
        };
        let body = timed_body(alloc, first, RECORDS)?;
        push_frame(&mut bytes, body.as_slice())?;
    }
    Ok(bytes)
}

/// How many records are counted of these bytes in pieces of this size, over an empty archive in memory.
fn serve_bytes(alloc: Global, bytes: &[u8], piece: usize) -> Option<u64> {
    if piece == 0 {
        return None;
    }
    let mut link = MemoryLink::new(alloc, bytes, piece, 4_000_000, &[]).ok()?;
    let medium = MemoryMedium::new(alloc, &[], &[]).ok()?;
    let Ok(mut shelf) = Shelf::open(alloc, medium) else {
        return None;
    };
    let served = serve_link(alloc, &mut link, &mut shelf, &Known::All, &mut NoOrders);
    Some(served.records)
}

/// Serves a session of N frames of 40 records in pieces of N bytes, each record new or all frames the same; the stream's
/// bytes, and how many records were counted.
pub fn serve(alloc: Global, frames: u64, piece: u64, new: bool) -> Option<(u64, u64)> {
    let imei = Imei::from_number(356_307_042_441_013)?;
    let bytes = stream(alloc, imei, frames, new).ok()?;
    let counted = serve_bytes(alloc, &bytes, piece as usize)?;
    Some((bytes.len() as u64, counted))
}
