//! A tracker over a medium in memory of which one call fails: at that call, and once the ring was opened again.
use crate::samples::{IMEI, Listing, held, sample};
use avl_values::{Codec, Imei, MediumFault};
use flash_ring::{Order, ReopenFault, Ring};
use frame_channel::MemoryLink;
use medium::MemoryMedium;
use std::alloc::Global;
use std::test::Fail;
use tracker_session::{KeepFault, Kept, PlainShell, RoundEnd, Tracker};

// A tracker over two slots on a medium of which the calls of these numbers fail: four open the ring.
fn over(alloc: Global, bytes: &[u8], failing: &[u64]) -> Option<Tracker<MemoryMedium>> {
    let imei = Imei::from_number(IMEI)?;
    let Ok(medium) = MemoryMedium::new(alloc, bytes, failing) else {
        return None;
    };
    match Ring::open(alloc, medium, 2) {
        Ok(ring) => Some(Tracker::new(imei, ring, Order::Oldest)),
        Err(_) => None,
    }
}

// The same with both slots closed.
fn over_two(alloc: Global, failing: &[u64]) -> Option<Tracker<MemoryMedium>> {
    over(alloc, &[0; 544], failing)
}

// What keeping a record comes to.
fn kept(tracker: &mut Tracker<MemoryMedium>) -> Option<Result<Kept, KeepFault>> {
    let rec = sample(Codec::C8, 1)?;
    if tracker.is_down() {
        return None;
    }
    Some(tracker.keep(&rec, &mut Listing::new(false)))
}

// The same with two records before, each of which takes four calls.
fn full(alloc: Global, call: u64) -> Option<Tracker<MemoryMedium>> {
    let mut tracker = over_two(alloc, &[call])?;
    let Ok(_) = kept(&mut tracker)? else {
        return None;
    };
    let Ok(_) = kept(&mut tracker)? else {
        return None;
    };
    Some(tracker)
}

// How many records are held once the ring of a failed call was opened again.
fn opened_again(tracker: &mut Tracker<MemoryMedium>) -> Option<u16> {
    if !tracker.is_down() {
        return None;
    }
    tracker.reopen().ok()?;
    Some(held(tracker))
}

// Where a call of keeping a record fails: how many are held once the ring was opened again, and what keeping it comes to then.
fn kept_again(tracker: &mut Tracker<MemoryMedium>) -> Option<(u16, Result<Kept, KeepFault>)> {
    let Err(KeepFault::MediumFault) = kept(tracker)? else {
        return None;
    };
    let between = opened_again(tracker)?;
    Some((between, kept(tracker)?))
}

fn with_room(alloc: Global, call: u64) -> Option<(u16, Result<Kept, KeepFault>)> {
    kept_again(&mut over_two(alloc, &[call])?)
}

fn without_room(alloc: Global, call: u64) -> Option<(u16, Result<Kept, KeepFault>)> {
    kept_again(&mut full(alloc, call)?)
}

// The record's bytes, a sync, its gate and a sync.
#[test]
fn each_call_of_a_store_fails_in_turn(rt: HostRuntime) -> Result<(), Fail> {
    let alloc = rt.alloc();
    let stored = Ok(Kept::Stored);
    for (call, held) in [(4, 0), (5, 0), (6, 0), (7, 1)] {
        assert!(rt; with_room(alloc, call) == Some((held, stored)), "{call}");
    }
    assert!(rt; with_room(alloc, 8).is_none());
    Ok(())
}

// The oldest one's gate and a sync come first.
#[test]
fn each_call_of_a_store_into_a_full_ring_fails_in_turn(rt: HostRuntime) -> Result<(), Fail> {
    let alloc = rt.alloc();
    let stored = Ok(Kept::Stored);
    let over = Ok(Kept::StoredOver);
    assert!(rt; without_room(alloc, 12) == Some((2, over)));
    for call in 13..17 {
        assert!(rt; without_room(alloc, call) == Some((1, stored)), "{call}");
    }
    assert!(rt; without_room(alloc, 17) == Some((2, over)));
    assert!(rt; without_room(alloc, 18).is_none());
    Ok(())
}

// Two slots, of which the second is open and has the last sequence.
fn with_the_last_sequence() -> [u8; 544] {
    let mut bytes = [0; 544];
    bytes[272..276].copy_from_slice(&[0xa5, 8, 30, 0x7f]);
    bytes[276..283].copy_from_slice(&[0xff; 7]);
    bytes
}

// What keeping a record comes to after the last sequence, and how many are held then.
fn kept_after_the_last(alloc: Global) -> Option<(Result<Kept, KeepFault>, u16)> {
    let mut tracker = over(alloc, &with_the_last_sequence(), &[])?;
    Some((kept(&mut tracker)?, held(&tracker)))
}

#[test]
fn a_spent_sequence_keeps_nothing(rt: HostRuntime) -> Result<(), Fail> {
    assert!(rt; kept_after_the_last(rt.alloc()) == Some((Err(KeepFault::SeqSpent), 1)));
    Ok(())
}

// How many records are held once a ring was opened again whose store failed, and where a call of that fails, too.
fn opened_later(alloc: Global, call: u64) -> Option<u16> {
    let mut tracker = over_two(alloc, &[4, call])?;
    let Err(KeepFault::MediumFault) = kept(&mut tracker)? else {
        return None;
    };
    let Err(ReopenFault::MediumFault) = tracker.reopen() else {
        return None;
    };
    opened_again(&mut tracker)
}

// A sync, the length and two slots.
#[test]
fn each_call_of_opening_again_fails_in_turn(rt: HostRuntime) -> Result<(), Fail> {
    let alloc = rt.alloc();
    for call in 5..9 {
        assert!(rt; opened_later(alloc, call) == Some(0), "{call}");
    }
    assert!(rt; opened_later(alloc, 9).is_none());
    Ok(())
}

// A round whose batch is counted by this number.
fn round(
    alloc: Global,
    tracker: &mut Tracker<MemoryMedium>,
    count: u8,
) -> Option<Result<RoundEnd, MediumFault>> {
    if tracker.is_down() {
        return None;
    }
    let mut link = MemoryLink::new(alloc, &[1, 0, 0, 0, count], 1, 4096, &[]).ok()?;
    Some(tracker.round(&mut link, &mut PlainShell, 1))
}

// Where a call of releasing two records fails: how many are held once the ring was opened again, and how a further round ends.
fn round_again(alloc: Global, call: u64) -> Option<(u16, Result<RoundEnd, MediumFault>)> {
    let mut tracker = full(alloc, call)?;
    let Err(MediumFault) = round(alloc, &mut tracker, 2)? else {
        return None;
    };
    let between = opened_again(&mut tracker)?;
    let count = u8::try_from(between).ok()?;
    Some((between, round(alloc, &mut tracker, count)?))
}

// Two gates and a sync.
#[test]
fn each_call_of_a_release_fails_in_turn(rt: HostRuntime) -> Result<(), Fail> {
    let alloc = rt.alloc();
    assert!(rt; round_again(alloc, 12) == Some((2, Ok(RoundEnd::Done(2)))));
    assert!(rt; round_again(alloc, 13) == Some((1, Ok(RoundEnd::Done(1)))));
    assert!(rt; round_again(alloc, 14) == Some((0, Ok(RoundEnd::Empty))));
    assert!(rt; round_again(alloc, 15).is_none());
    Ok(())
}
