//! Servers of which one call fails.
ghost use Rattle.std.specs.Prelude.{◌≡◌, IfOk, IfSome};
ghost use Rattle.doors.specs.MemoryDoors.{IsUnusedLink};
ghost use Rattle.fmb_host.specs.Host.{AreSmall, IsNewDoor};
ghost use Rattle.fmb_host.specs.Memory.{gate_state};

use doors::MemoryDoor;
use fmb_host::{Host, MemoryHost};
use fmb_run::run;
use hex::decode;
use links::MemoryLink;
use medium::MemoryMedium;
use std::alloc::Global;
use std::sync::Wait;
use std::thread::Threads;
use text_streams::MemorySink;

/// Teltonika's example of Codec 8, a frame of one record.
const CODEC_8: &str =
    "000000000000003608010000016b40d8ea30010000000000000000000000000000000105021503010101425e0f01f10000601a014e0000000000000000010000c7cf";

/// The calls that fail, by their numbers: those of the host, of the door, of its link, of the archive and of the sink.
#[derive(Clone, Copy)]
struct Failing<'a> {
    host: &'a [u64],
    door: &'a [u64],
    link: &'a [u64],
    archive: &'a [u64],
    sink: &'a [u64],
}

fn nothing() -> Failing<'static> {
    Failing {
        host: &[],
        door: &[],
        link: &[],
        archive: &[],
        sink: &[],
    }
}

// The login of the device 356307042441013, and a frame.
fn stream(alloc: Global) -> Option<Vec<u8>> {
    let mut bytes = Vec::from_slice(alloc, b"\x00\x0f356307042441013").ok()?;
    let Ok(frame) = decode(alloc, CODEC_8.as_bytes()) else {
        return None;
    };
    bytes.extend_from_slice(&frame).ok()?;
    Some(bytes)
}

// A link that carries the stream in pieces of 64 bytes.
fn link(alloc: Global, failing: &[u64]) -> Option<MemoryLink>
    ensures { IfSome result IsUnusedLink }
{
    let bytes = stream(alloc)?;
    match MemoryLink::new(alloc, &bytes, 64, 64, failing) {
        Ok(link) => Some(link),
        Err(_) => None,
    }
}

// A door of one link.
fn door(alloc: Global, failing: Failing<'_>) -> Option<MemoryDoor>
    ensures { IfSome result (λ d. IsNewDoor (gate_state d)) }
{
    let mut links = Vec::new(alloc);
    links.push(link(alloc, failing.link)?).ok()?;
    match MemoryDoor::new(alloc, links, failing.door) {
        Ok(door) => Some(door),
        Err(_) => None,
    }
}

// A host without archive and door.
fn empty(alloc: Global, failing: Failing<'_>) -> Option<MemoryHost>
    ensures { IfSome result (λ host. AreSmall host.counts) }
{
    let sink = MemorySink::new(alloc, 100, failing.sink).ok()?;
    match MemoryHost::new(alloc, sink, failing.host) {
        Ok(host) => Some(host),
        Err(_) => None,
    }
}

fn add_archive(alloc: Global, host: &mut MemoryHost, failing: Failing<'_>) -> Option<()>
    ensures { host.new.counts ≡ host.old.counts }
{
    match MemoryMedium::new(alloc, &[], failing.archive) {
        Ok(medium) => host.add_medium(medium).ok(),
        Err(_) => None,
    }
}

fn add_door(alloc: Global, host: &mut MemoryHost, failing: Failing<'_>) -> Option<()>
    ensures { host.new.counts ≡ host.old.counts }
{
    host.add_door(door(alloc, failing)?).ok()
}

// A host for a failing.
fn host_of(alloc: Global, failing: Failing<'_>) -> Option<MemoryHost>
    ensures { IfSome result (λ host. AreSmall host.counts) }
{
    let mut host = empty(alloc, failing)?;
    add_archive(alloc, &mut host, failing)?;
    add_door(alloc, &mut host, failing)?;
    Some(host)
}

fn words(alloc: Global) -> Option<Vec<String>> {
    let line = "serve address archive --workers 1 --sessions 1";
    let mut words = Vec::new(alloc);
    for word in line.split_whitespace() {
        words.push(String::from_str(alloc, word).ok()?).ok()?;
    }
    Some(words)
}

// Serves it, and gives the host back with the status.
fn served<R: Threads + Wait + Sync>(
    rt: &R,
    alloc: Global,
    failing: Failing<'_>,
) -> Option<(MemoryHost, u8)> {
    let words = words(alloc)?;
    let mut host = host_of(alloc, failing)?;
    let status = run(rt, alloc, words.as_slice(), &mut host);
    Some((host, status))
}

// Whether a host prints this, and has so many archives back.
fn has(host: &MemoryHost, printed: &str, back: usize) -> bool {
    host.sink().written() == printed.as_bytes() && host.media_back().len() == back
}

// Whether a server ends with this status, prints this, and gives so many archives back.
fn ends<R: Threads + Wait + Sync>(
    rt: &R,
    alloc: Global,
    failing: Failing<'_>,
    status: u8,
    printed: &str,
    back: usize,
) -> bool {
    match served(rt, alloc, failing) {
        Some((host, ended)) => ended == status && has(&host, printed, back),
        None => false,
    }
}

fn host_fails<R: Threads + Wait + Sync>(rt: &R, alloc: Global, call: u64, back: usize) -> bool {
    let failing = Failing {
        host: &[call],
        ..nothing()
    };
    ends(rt, alloc, failing, 7, "host fault\n", back)
}

fn accept_fails<R: Threads + Wait + Sync>(rt: &R, alloc: Global) -> bool {
    let failing = Failing {
        door: &[0],
        ..nothing()
    };
    ends(rt, alloc, failing, 7, "archive records 0 devices 0\n", 1)
}

fn link_fails<R: Threads + Wait + Sync>(rt: &R, alloc: Global, call: u64, printed: &str) -> bool {
    let failing = Failing {
        link: &[call],
        ..nothing()
    };
    ends(rt, alloc, failing, 0, printed, 1)
}

fn sink_fails<R: Threads + Wait + Sync>(rt: &R, alloc: Global) -> bool {
    let failing = Failing {
        sink: &[0],
        ..nothing()
    };
    ends(rt, alloc, failing, 5, "", 1)
}

fn archive_fails<R: Threads + Wait + Sync>(
    rt: &R,
    alloc: Global,
    call: u64,
    printed: &str,
) -> bool {
    let failing = Failing {
        archive: &[call],
        ..nothing()
    };
    ends(rt, alloc, failing, 6, printed, 1)
}

// Whether nothing fails where these are the first calls of each that it doesn't make.
fn more_calls_pass<R: Threads + Wait + Sync>(rt: &R, alloc: Global) -> bool {
    let failing = Failing {
        host: &[2],
        door: &[1],
        link: &[5],
        archive: &[8],
        sink: &[1],
    };
    let printed = "session 1 1 356307042441013 ended\narchive records 1 devices 1\n";
    ends(rt, alloc, failing, 0, printed, 1)
}

// The archive and the door; an accept; and the lines.
#[test]
fn each_call_of_the_host_fails_in_turn(rt: HostRuntime) {
    let alloc = rt.alloc();
    assert!(rt; host_fails(&rt, alloc, 0, 0));
    assert!(rt; host_fails(&rt, alloc, 1, 1));
    assert!(rt; accept_fails(&rt, alloc));
    assert!(rt; sink_fails(&rt, alloc));
    assert!(rt; more_calls_pass(&rt, alloc));
}

// 64 bytes, the login's answer, the rest, the count, and the end.
#[test]
fn each_call_of_a_link_fails_in_turn(rt: HostRuntime) {
    let alloc = rt.alloc();
    let unheard = "session 1 1 - link\narchive records 0 devices 0\n";
    let unkept = "session 1 1 356307042441013 link\narchive records 0 devices 0\n";
    let kept = "session 1 1 356307042441013 link\narchive records 1 devices 1\n";
    assert!(rt; link_fails(&rt, alloc, 0, unheard));
    assert!(rt; link_fails(&rt, alloc, 1, unkept));
    assert!(rt; link_fails(&rt, alloc, 2, unkept));
    assert!(rt; link_fails(&rt, alloc, 3, kept));
    assert!(rt; link_fails(&rt, alloc, 4, kept));
}

// Four calls open an empty archive, and four admit a record.
#[test]
fn each_call_of_an_archive_fails_in_turn(rt: HostRuntime) {
    let alloc = rt.alloc();
    let unkept = "session 1 1 356307042441013 medium\narchive records 0 devices 0\n";
    for call in 0..4u64 {
        assert!(rt; archive_fails(&rt, alloc, call, "medium fault\n"), "{call}");
    }
    for call in 4..8u64 {
        assert!(rt; archive_fails(&rt, alloc, call, unkept), "{call}");
    }
}
