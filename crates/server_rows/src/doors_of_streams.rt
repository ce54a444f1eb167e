//! Doors in memory whose links carry streams that are given in hex, and their service over an archive in memory.
ghost use Rattle.std.specs.Prelude.{◌≡◌, ◌<◌, ◌≤◌, ◌^◌, ◌∷◌, [], length, All, IfSome};
ghost use Rattle.doors.specs.MemoryDoors.{IsUnusedLink};

use doors::MemoryDoor;
use hex::decode;
use links::MemoryLink;
use medium::MemoryMedium;
use server_loop::{ServeReport, serve};
use session_core::Known;
use shelf::Shelf;
use std::alloc::Global;
use std::sync::Wait;
use std::thread::Threads;

pub const DEVICE: u64 = 356_307_042_441_013;

/// Teltonika's example of a login, of this device.
pub const LOGIN: &str = "000f333536333037303432343431303133";

pub const OTHER: u64 = 352_093_081_452_251;

/// A login of the other device.
pub const OTHER_LOGIN: &str = "000f333532303933303831343532323531";

/// Teltonika's example of Codec 8, a frame of one record.
pub const CODEC_8: &str =
    "000000000000003608010000016b40d8ea30010000000000000000000000000000000105021503010101425e0f01f10000601a014e0000000000000000010000c7cf";

/// Teltonika's example of Codec 16, a frame of two records.
pub const CODEC_16: &str =
    "000000000000005f10020000016bdbc7833000000000000000000000000000000000000b05040200010000030002000b00270042563a00000000016bdbc7871800000000000000000000000000000000000b05040200010000030002000b00260042563a00000200005fb3";

/// Its first 20 bytes.
pub const CODEC_16_FRONT: &str = "000000000000005f10020000016bdbc783300000";

/// A stream in hex, and the calls of its link that fail.
#[derive(Clone, Copy)]
pub struct Stream<'a> {
    pub parts: &'a [&'a str],
    pub failing: &'a [u64],
}

/// A stream over a link that never fails.
pub fn whole<'a>(parts: &'a [&'a str]) -> Stream<'a> {
    Stream {
        parts,
        failing: &[],
    }
}

// Bytes given in hex, joined.
fn joined(alloc: Global, parts: &[&str]) -> Option<Vec<u8>> {
    let mut all = Vec::new(alloc);
    for part in parts {
        let Ok(bytes) = decode(alloc, part.as_bytes()) else {
            return None;
        };
        all.extend_from_slice(&bytes).ok()?;
    }
    Some(all)
}

// A link that carries a stream in pieces of 7 bytes.
fn link(alloc: Global, stream: Stream<'_>) -> Option<MemoryLink>
    ensures { IfSome result IsUnusedLink }
{
    let bytes = joined(alloc, stream.parts)?;
    match MemoryLink::new(alloc, &bytes, 7, 64, stream.failing) {
        Ok(link) => Some(link),
        Err(_) => None,
    }
}

/// A door whose links carry these streams, one after the other, and whose accepts of these numbers fail.
pub fn door(alloc: Global, streams: &[Stream<'_>], failing: &[u64]) -> Option<MemoryDoor>
    ensures { IfSome result (λ d. d.link_faults ≡ 0) }
{
    let mut links = Vec::new(alloc);
    for stream in streams {
        links.push(link(alloc, *stream)?).ok()?;
    }
    match MemoryDoor::new(alloc, links, failing) {
        Ok(door) => Some(door),
        Err(_) => None,
    }
}

// A shelf over an empty medium that doesn't fail.
fn over_nothing(alloc: Global) -> Option<Shelf<MemoryMedium>> {
    let Ok(medium) = MemoryMedium::new(alloc, &[], &[]) else {
        return None;
    };
    match Shelf::open(alloc, medium) {
        Ok(shelf) => Some(shelf),
        Err(_) => None,
    }
}

/// What a server of these doors reports, which knows every device and archives in memory.
pub fn served<R: Threads + Wait + Sync>(
    rt: &R,
    alloc: Global,
    doors: Vec<MemoryDoor>,
    sessions: u32,
) -> Option<ServeReport<MemoryDoor, MemoryMedium>>
    requires some { 0 < length doors.items }
    requires few { length doors.items ≤ 64 }
    requires links { All (λ d. d.link_faults < 2 ^ 63) doors.items }
    requires some_sessions { 0 < sessions }
    requires few_sessions { sessions ≤ 100000 }
{
    let shelf = over_nothing(alloc)?;
    if shelf.is_down() {
        return None;
    }
    match serve(rt, alloc, doors, shelf, &Known::All, sessions) {
        Ok(report) => Some(report),
        Err(_) => None,
    }
}

/// The same of one door.
pub fn served_one<R: Threads + Wait + Sync>(
    rt: &R,
    alloc: Global,
    door: MemoryDoor,
    sessions: u32,
) -> Option<ServeReport<MemoryDoor, MemoryMedium>>
    requires links { door.link_faults ≡ 0 }
    requires some_sessions { 0 < sessions }
    requires few_sessions { sessions ≤ 100000 }
{
    let doors = vec![in alloc; door].ok()?;
    served(rt, alloc, doors, sessions)
}

/// The same of two.
pub fn served_two<R: Threads + Wait + Sync>(
    rt: &R,
    alloc: Global,
    first: MemoryDoor,
    second: MemoryDoor,
    sessions: u32,
) -> Option<ServeReport<MemoryDoor, MemoryMedium>>
    requires first { first.link_faults ≡ 0 }
    requires second { second.link_faults ≡ 0 }
    requires some_sessions { 0 < sessions }
    requires few_sessions { sessions ≤ 100000 }
{
    let doors = vec![in alloc; first, second].ok()?;
    served(rt, alloc, doors, sessions)
}
