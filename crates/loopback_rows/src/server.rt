//! A server at a listener, with its archive in memory.
ghost use Rattle.std.specs.Prelude.{◌≡◌, ◌<◌, ◌≤◌, ◌^◌, length, All};

use medium::MemoryMedium;
use server_loop::{ServeReport, serve};
use session_core::Known;
use shelf::Shelf;
use std::alloc::Global;
use std::io::{Sink, sink};
use std::net::TcpListener;
use std::sync::Wait;
use std::thread::Threads;
use std::time::Duration;
use tcp_edge::StreamDoor;

/// A door that writes no line of its connections.
pub type QuietDoor = StreamDoor<TcpListener, Sink>;

pub type Report = ServeReport<QuietDoor, MemoryMedium>;

/// For how many seconds either end waits for the other, before the test fails.
pub const SILENCE_SECONDS: u64 = 20;

/// A door at a listener.
pub fn door(listener: TcpListener) -> QuietDoor
    ensures { result.link_faults ≡ 0 }
{
    StreamDoor::new(listener, sink(), Duration::from_secs(SILENCE_SECONDS))
}

// A shelf over an empty medium that doesn't fail.
fn over_nothing(alloc: Global) -> Option<Shelf<MemoryMedium>> {
    let Ok(medium) = MemoryMedium::new(alloc, &[], &[]) else {
        return None;
    };
    match Shelf::open(alloc, medium) {
        Ok(shelf) => Some(shelf),
        Err(_) => None,
    }
}

// What a server of these doors reports, which knows every device and archives in memory.
fn served<R: Threads + Wait + Sync>(
    rt: &R,
    alloc: Global,
    doors: Vec<QuietDoor>,
    sessions: u32,
) -> Option<Report>
    requires some { 0 < length doors.items }
    requires few { length doors.items ≤ 64 }
    requires links { All (λ d. d.link_faults < 2 ^ 63) doors.items }
    requires some_sessions { 0 < sessions }
    requires few_sessions { sessions ≤ 100000 }
{
    let shelf = over_nothing(alloc)?;
    if shelf.is_down() {
        return None;
    }
    match serve(rt, alloc, doors, shelf, &Known::All, sessions) {
        Ok(report) => Some(report),
        Err(_) => None,
    }
}

/// What a server of one door reports, which knows every device and archives in memory.
pub fn served_one<R: Threads + Wait + Sync>(
    rt: &R,
    alloc: Global,
    door: QuietDoor,
    sessions: u32,
) -> Option<Report>
    requires links { door.link_faults ≡ 0 }
    requires some_sessions { 0 < sessions }
    requires few_sessions { sessions ≤ 100000 }
{
    let doors = vec![in alloc; door].ok()?;
    served(rt, alloc, doors, sessions)
}

/// The same of two.
pub fn served_two<R: Threads + Wait + Sync>(
    rt: &R,
    alloc: Global,
    first: QuietDoor,
    second: QuietDoor,
    sessions: u32,
) -> Option<Report>
    requires first { first.link_faults ≡ 0 }
    requires second { second.link_faults ≡ 0 }
    requires some_sessions { 0 < sessions }
    requires few_sessions { sessions ≤ 100000 }
{
    let doors = vec![in alloc; first, second].ok()?;
    served(rt, alloc, doors, sessions)
}
