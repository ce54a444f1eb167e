ghost use Rattle.std.specs.Prelude.{IfSome};
ghost use Rattle.fmb_host.specs.Host.{IsNewDoor};
ghost use Rattle.fmb_host.specs.Memory.{gate_state};

use crate::{Counts, Host, MemoryHost};
use doors::{Door, MemoryDoor};
use links::MemoryLink;
use medium::MemoryMedium;
use medium_model::Medium;
use std::alloc::Global;
use text_streams::{MemorySink, MemorySource, Sink, Source};

#[test]
fn ample_memory_is_enough(rt: HostRuntime) {
    let source = MemorySource::new(rt.alloc(), b"abcde", &[0]).expect(&rt, "a source");
    let sink = MemorySink::new(rt.alloc(), 4, &[]).expect(&rt, "a sink");
    let mut host = MemoryHost::new(rt.alloc(), sink, &[0]).expect(&rt, "a host");
    host.add_text(source).expect(&rt, "room for a text");
    assert!(rt; host.open_text("script").is_err(), "call 0 fails");
    let mut text = host.open_text("script").expect(&rt, "a text");
    assert!(rt; text.read(&mut [0; 3]).is_err(), "its call 0 fails");
    host.text_back(text);
    assert_eq!(rt; host.texts_back().len(), 1);
    let counts = Counts {
        host: 1,
        texts: 1,
        media: 0,
        doors: 0,
    };
    assert_eq!(rt; host.counts(), counts);
    assert_eq!(rt; host.out().write(b"hello").ok(), Some(4));
    assert_eq!(rt; host.sink().written(), b"hell".as_slice());
}

// What follows takes a host that is lent, and holds one thing at a time, so that its proof stays small.

fn flash(host: &mut MemoryHost) -> Option<MemoryMedium> {
    if host.counts().host > 9 {
        return None;
    }
    host.open_medium("flash").ok()
}

fn flash_back(host: &mut MemoryHost, medium: MemoryMedium) {
    if host.counts().media < 9 {
        host.medium_back(medium);
    }
}

/// Opens a medium and gives it back; whether its first call failed.
fn uses_flash(host: &mut MemoryHost) -> bool {
    let Some(mut medium) = flash(host) else {
        return false;
    };
    let failed = medium.len().is_err();
    flash_back(host, medium);
    failed
}

/// Dials, and gives the link back.
fn uses_link(host: &mut MemoryHost) -> bool {
    if host.counts().host > 9 {
        return false;
    }
    match host.dial("here") {
        Ok(link) => {
            host.wire_back(link);
            true
        }
        Err(_) => false,
    }
}

fn door(host: &mut MemoryHost) -> Option<MemoryDoor> {
    if host.counts().host > 9 {
        return None;
    }
    host.door("here", 1).ok()
}

fn door_back(host: &mut MemoryHost, door: MemoryDoor) {
    if host.counts().doors < 9 {
        host.door_back(door);
    }
}

/// Has a door and gives it back; whether its first accept failed.
fn uses_door(host: &mut MemoryHost) -> bool {
    let Some(mut gate) = door(host) else {
        return false;
    };
    let failed = gate.accept().is_err();
    door_back(host, gate);
    failed
}

/// A door without links.
#[tactic(auto, using(crate::proofs::Fresh::new_door))]
fn new_door(alloc: Global) -> Option<MemoryDoor>
    ensures { IfSome result (λ door. IsNewDoor (gate_state door)) }
{
    match MemoryDoor::new(alloc, Vec::new(alloc), &[]) {
        Ok(door) => Some(door),
        Err(_) => None,
    }
}

fn add_medium(alloc: Global, host: &mut MemoryHost) -> Option<()> {
    host.add_medium(MemoryMedium::new(alloc, b"abc", &[0]).ok()?)
        .ok()
}

fn add_link(alloc: Global, host: &mut MemoryHost) -> Option<()> {
    host.add_link(MemoryLink::new(alloc, b"ab", 1, 0, &[]).ok()?)
        .ok()
}

fn add_door(alloc: Global, host: &mut MemoryHost) -> Option<()> {
    host.add_door(new_door(alloc)?).ok()
}

fn fill(alloc: Global, host: &mut MemoryHost) -> Option<()> {
    add_medium(alloc, host)?;
    add_link(alloc, host)?;
    add_door(alloc, host)
}

/// A host with a medium that fails at its first call, a link, and a door without links. Its call 2 fails.
fn filled(alloc: Global) -> Option<MemoryHost> {
    let sink = MemorySink::new(alloc, 4, &[]).ok()?;
    let mut host = MemoryHost::new(alloc, sink, &[2]).ok()?;
    fill(alloc, &mut host)?;
    Some(host)
}

/// Opens, dials and doors are numbered together: call 2 fails, and call 4 finds no link left.
#[test]
fn each_kind_in_its_order(rt: HostRuntime) {
    let mut host = filled(rt.alloc()).expect(&rt, "a host");
    assert!(rt; uses_flash(&mut host), "its call 0 fails");
    assert!(rt; uses_link(&mut host), "a link");
    assert!(rt; !uses_door(&mut host), "call 2 fails");
    assert!(rt; uses_door(&mut host), "it has no link");
    assert!(rt; !uses_link(&mut host), "no link is left");
    let counts = Counts {
        host: 2,
        texts: 0,
        media: 1,
        doors: 1,
    };
    assert_eq!(rt; host.counts(), counts);
    assert_eq!(rt; host.media_back().len(), 1);
    assert_eq!(rt; host.links_back().len(), 1);
    assert_eq!(rt; host.doors_back().len(), 1);
}

fn uses_bench(host: &mut MemoryHost) -> bool {
    match host.bench() {
        Ok(bench) => {
            host.bench_back(bench);
            true
        }
        Err(_) => false,
    }
}

#[test]
fn a_bench_comes_back(rt: HostRuntime) {
    let mut host = filled(rt.alloc()).expect(&rt, "a host");
    assert!(rt; uses_bench(&mut host), "a bench");
    assert_eq!(rt; host.benches_back().len(), 1);
}
