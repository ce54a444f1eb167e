//! Streams in hex, and their service over links in memory, with a shelf over a medium in memory.
ghost use Rattle.std.specs.Prelude.{◌<◌};

use frame_channel::MemoryLink;
use hex::decode;
use medium::MemoryMedium;
use session_core::{Known, NoOrders, Served, serve_link};
use shelf::Shelf;
use std::alloc::Global;

pub const DEVICE: u64 = 356_307_042_441_013;

/// Teltonika's example of a login, of this device.
pub const LOGIN: &str = "000f333536333037303432343431303133";

/// Bytes given in hex, joined.
pub fn joined(alloc: Global, parts: &[&str]) -> Option<Vec<u8>> {
    let mut all = Vec::new(alloc);
    for part in parts {
        let Ok(bytes) = decode(alloc, part.as_bytes()) else {
            return None;
        };
        all.extend_from_slice(&bytes).ok()?;
    }
    Some(all)
}

/// A shelf over an empty medium that fails at this call. To open it takes four calls, and each packet with a new record four more.
pub fn over_nothing(alloc: Global, failing: u64) -> Option<Shelf<MemoryMedium>> {
    let Ok(medium) = MemoryMedium::new(alloc, b"", &[failing]) else {
        return None;
    };
    match Shelf::open(alloc, medium) {
        Ok(shelf) => Some(shelf),
        Err(_) => None,
    }
}

/// Serves a stream in pieces, and says whether just this was written, and how it ended.
pub fn serve(
    alloc: Global,
    shelf: &mut Shelf<MemoryMedium>,
    known: &Known,
    stream: &[u8],
    piece: usize,
    written: &[u8],
) -> Option<Served>
    requires { 0 < piece }
{
    let Ok(mut link) = MemoryLink::new(alloc, stream, piece, 64, &[]) else {
        return None;
    };
    let served = serve_link(alloc, &mut link, shelf, known, &mut NoOrders);
    if link.written() == written {
        Some(served)
    } else {
        None
    }
}

/// The same over a shelf of its own.
pub fn serve_alone(
    alloc: Global,
    known: &Known,
    stream: &[u8],
    piece: usize,
    written: &[u8],
) -> Option<Served>
    requires { 0 < piece }
{
    let mut shelf = over_nothing(alloc, 4_000)?;
    serve(alloc, &mut shelf, known, stream, piece, written)
}
