ghost use Rattle.std.specs.Prelude.{◌≡◌, ◌≤◌, false, IfSome};
ghost use Rattle.medium_model.specs.CallsLeft.{unlimited};
ghost use Rattle.medium.specs.Memory.{bench_state};
ghost use Rattle.record_codecs.specs.SomeRecord.{IsSomeRecord};

use avl_values::{Codec, Rec};
use flash_ring::{OpenFault, Order, PutFault, Ring};
use hex::decode;
use medium::{Bench, Medium, MemoryBench, MemoryMedium, Tear};
use record_codecs::is_record;
use std::alloc::Global;
use std::test::Fail;

/// 1560161086000 milliseconds, the time of a record.
const TIME: [u8; 8] = [0, 0, 0x01, 0x6b, 0x40, 0xd8, 0xea, 0x30];

// A Codec 8 record without elements.
fn sample() -> Option<Rec>
    ensures { IfSome result (λ r. IsSomeRecord r.codec r.bytes.items) }
{
    let mut bytes = [0; 30];
    bytes[..8].copy_from_slice(&TIME);
    if !is_record(Codec::C8, &bytes) {
        return None;
    }
    Some(Rec::new(Codec::C8, &bytes))
}

// A ring over a bench that was formatted.
fn formatted(alloc: Global, slots: u16) -> Option<Ring<MemoryBench>>
    requires some { 1 ≤ slots }
    requires few { slots ≤ 4096 }
    ensures unarmed { IfSome result (λ r. r.medium.left ≡ unlimited) }
{
    let Ok(mut bench) = MemoryBench::new(alloc) else {
        return None;
    };
    let Ok(()) = bench.reserve(272 * slots as u64) else {
        return None;
    };
    let Ok(()) = Ring::format(&mut bench, slots) else {
        return None;
    };
    match Ring::open(alloc, bench, slots) {
        Ok(ring) => Some(ring),
        Err(_) => None,
    }
}

// Stores a record, where the ring is up and has room; None where it did.
fn store<M: Medium>(ring: &mut Ring<M>) -> Option<PutFault> {
    let Some(rec) = sample() else {
        return Some(PutFault::SeqSpent);
    };
    if ring.is_down() || ring.oldest_if_full().is_some() {
        return Some(PutFault::SeqSpent);
    }
    ring.put(&rec).err()
}

// The bench of a ring once its power came back.
fn restarted(ring: Ring<MemoryBench>) -> MemoryBench
    ensures unarmed { (bench_state result).left ≡ unlimited }
{
    let mut bench = ring.into_medium();
    bench.restart();
    bench
}

// How many records are held on a bench, or 99 where it can't be opened.
fn held_on(alloc: Global, bench: MemoryBench, slots: u16) -> u16
    requires some { 1 ≤ slots }
    requires few { slots ≤ 4096 }
{
    match Ring::open(alloc, bench, slots) {
        Ok(ring) => ring.held(),
        Err(_) => 99,
    }
}

// A ring of 16 slots whose power was lost inside a `put` after N calls, or after it, and whether that was stored.
fn torn(alloc: Global, calls: u64, tear: Tear) -> Option<(bool, Ring<MemoryBench>)> {
    let mut ring = formatted(alloc, 16)?;
    ring.arm(calls, tear);
    let stored = store(&mut ring).is_none();
    Some((stored, ring))
}

// A power loss inside a `put` into 16 slots after N calls: whether it was stored, and how many are held afterwards.
fn put_cut(alloc: Global, calls: u64, tear: Tear) -> (bool, u16) {
    match torn(alloc, calls, tear) {
        Some((stored, ring)) => (stored, held_on(alloc, restarted(ring), 16)),
        None => (false, 98),
    }
}

// Whether N are held with this tear, by how many calls passed before the power was lost, and one where four did and the
// record was stored.
fn cuts_hold(alloc: Global, tear: Tear, held: &[u16]) -> bool {
    for (calls, wanted) in held.iter().enumerate() {
        if put_cut(alloc, calls as u64, tear) != (false, *wanted) {
            return false;
        }
    }
    put_cut(alloc, 4, tear) == (true, 1)
}

#[test]
fn a_power_loss_inside_a_put(rt: HostRuntime) -> Result<(), Fail> {
    let alloc = rt.alloc();
    assert!(rt; cuts_hold(alloc, Tear::Keep, &[0, 0, 0, 0]));
    assert!(rt; cuts_hold(alloc, Tear::Zero, &[0, 0, 0, 0]));
    assert!(rt; cuts_hold(alloc, Tear::Half, &[0, 0, 0, 0]));
    assert!(rt; cuts_hold(alloc, Tear::New, &[0, 0, 1, 1]));
    assert!(rt; cuts_hold(alloc, Tear::AllOpen, &[0, 0, 1, 1]));
    Ok(())
}

// N zero bytes, with two bytes at the front of slot 3 where there is one.
fn with_a_front(alloc: Global, size: usize, gate: u8, codec: u8) -> Option<Vec<u8>> {
    let Ok(mut bytes) = vec![in alloc; 0u8; size] else {
        return None;
    };
    if bytes.len() > 817 {
        bytes[816] = gate;
        bytes[817] = codec;
    }
    Some(bytes)
}

// What refuses a medium of these bytes as a ring of 16 slots.
fn refusal_of(alloc: Global, bytes: &[u8]) -> Option<OpenFault> {
    let Ok(medium) = MemoryMedium::new(alloc, bytes, &[]) else {
        return Some(OpenFault::NoMemory);
    };
    match Ring::open(alloc, medium, 16) {
        Ok(_) => None,
        Err((fault, _)) => Some(fault),
    }
}

// What refuses a medium of N zero bytes, with two bytes at the front of slot 3 where it has one.
fn refusal(alloc: Global, size: usize, gate: u8, codec: u8) -> Option<OpenFault> {
    match with_a_front(alloc, size, gate, codec) {
        Some(bytes) => refusal_of(alloc, &bytes),
        None => Some(OpenFault::NoMemory),
    }
}

#[test]
fn what_is_no_flash(rt: HostRuntime) -> Result<(), Fail> {
    let alloc = rt.alloc();
    let too_small = OpenFault::WrongSize {
        got: 271,
        wanted: 4352,
    };
    assert!(rt; refusal(alloc, 271, 0, 0) == Some(too_small));
    let bad_slot = OpenFault::BadSlot { slot: 3 };
    assert!(rt; refusal(alloc, 4352, 0xa5, 7) == Some(bad_slot));
    assert!(rt; refusal(alloc, 4352, 0, 7).is_none());
    Ok(())
}

// Whether two slots are formatted on an empty medium of which one call fails.
fn formats(alloc: Global, call: u64) -> Option<bool> {
    let mut medium = MemoryMedium::new(alloc, &[], &[call]).ok()?;
    medium.reserve(544).ok()?;
    Some(Ring::format(&mut medium, 2).is_ok())
}

// A write for each slot, and a sync.
#[test]
fn each_call_of_a_format_fails_in_turn(rt: HostRuntime) -> Result<(), Fail> {
    let alloc = rt.alloc();
    for call in 0..3 {
        assert!(rt; formats(alloc, call) == Some(false), "{call}");
    }
    assert!(rt; formats(alloc, 3) == Some(true));
    Ok(())
}

// Two closed slots on a medium of which one call fails.
fn two_closed(
    alloc: Global,
    call: u64,
) -> Option<Result<Ring<MemoryMedium>, (OpenFault, MemoryMedium)>> {
    let Ok(bytes) = vec![in alloc; 0u8; 544] else {
        return None;
    };
    let Ok(medium) = MemoryMedium::new(alloc, &bytes, &[call]) else {
        return None;
    };
    Some(Ring::open(alloc, medium, 2))
}

// Where a ring was refused, and whether it opens over the medium that was handed back.
fn refused(alloc: Global, fault: OpenFault, medium: MemoryMedium) -> (&'static str, bool) {
    match fault {
        OpenFault::MediumFault => (
            "open",
            medium.faults() == 1 && Ring::open(alloc, medium, 2).is_ok(),
        ),
        _ => ("refused", false),
    }
}

// Stores a record: where that failed, and whether it passes once the ring was opened again.
fn failing_put(ring: &mut Ring<MemoryMedium>) -> (&'static str, bool) {
    match store(ring) {
        Some(PutFault::MediumFault) => ("put", stores_again(ring)),
        Some(PutFault::SeqSpent) => ("spent", false),
        None => ("stored", true),
    }
}

// Whether a ring that is down stores a record once it was opened again.
fn stores_again(ring: &mut Ring<MemoryMedium>) -> bool {
    ring.is_down() && ring.reopen().is_ok() && store(ring).is_none()
}

// Opens two closed slots on a medium of which one call fails, and stores a record: where that failed, by the number of the
// call that can, and whether it passes once the ring was opened again.
fn failing_call(alloc: Global, call: u64) -> (&'static str, bool) {
    match two_closed(alloc, call) {
        None => ("memory", false),
        Some(Err((fault, medium))) => refused(alloc, fault, medium),
        Some(Ok(mut ring)) => failing_put(&mut ring),
    }
}

#[test]
fn each_call_fails_in_turn(rt: HostRuntime) -> Result<(), Fail> {
    let alloc = rt.alloc();
    for call in 0..4 {
        assert!(rt; failing_call(alloc, call) == ("open", true));
    }
    for call in 4..8 {
        assert!(rt; failing_call(alloc, call) == ("put", true));
    }
    assert!(rt; failing_call(alloc, 8) == ("stored", true));
    Ok(())
}

// Whether a ring of two has a record in each of its slots, and in the one after.
fn slots_held(alloc: Global) -> Option<[bool; 3]> {
    let Ok(mut ring) = two_closed(alloc, 99)? else {
        return None;
    };
    if store(&mut ring).is_some() || ring.is_down() {
        return None;
    }
    Some([0, 1, 2].map(|slot| ring.rec_at(slot).is_some()))
}

#[test]
fn only_an_open_slot_has_a_record(rt: HostRuntime) -> Result<(), Fail> {
    assert!(rt; slots_held(rt.alloc()) == Some([true, false, false]));
    Ok(())
}

// Stores N records.
fn stores<M: Medium>(ring: &mut Ring<M>, count: u16) -> bool {
    for _ in 0..count {
        if store(ring).is_some() {
            return false;
        }
    }
    true
}

// Two slots that hold a record each, over a medium of which the call of this number fails: four open the ring, and four
// store each record.
fn two_held(alloc: Global, call: u64) -> Option<Ring<MemoryMedium>> {
    let Ok(mut ring) = two_closed(alloc, call)? else {
        return None;
    };
    if stores(&mut ring, 2) {
        Some(ring)
    } else {
        None
    }
}

// Whether the records that are held were released.
fn releases(ring: &mut Ring<MemoryMedium>) -> bool {
    if ring.is_down() {
        return false;
    }
    let batch = ring.select(Order::Oldest, 90);
    !batch.is_empty() && ring.release(batch.as_slice()).is_ok()
}

// Releases two records, and, where a call of that failed, once more when the ring was opened again: how it went, and how many
// were held between.
fn release_twice(ring: &mut Ring<MemoryMedium>) -> (&'static str, u16) {
    if releases(ring) {
        return ("released", 0);
    }
    if !ring.is_down() {
        return ("up", 0);
    }
    let Ok(()) = ring.reopen() else {
        return ("not opened", 0);
    };
    let held = ring.held();
    if held > 0 && !releases(ring) {
        return ("not released", held);
    }
    ("failed", held)
}

// The same over a medium of which one call fails.
fn failing_release(alloc: Global, call: u64) -> (&'static str, u16) {
    match two_held(alloc, call) {
        Some(mut ring) => release_twice(&mut ring),
        None => ("not stored", 0),
    }
}

#[test]
fn each_call_of_a_release_fails_in_turn(rt: HostRuntime) -> Result<(), Fail> {
    let alloc = rt.alloc();
    assert!(rt; failing_release(alloc, 11) == ("not stored", 0));
    assert!(rt; failing_release(alloc, 12) == ("failed", 2));
    assert!(rt; failing_release(alloc, 13) == ("failed", 1));
    assert!(rt; failing_release(alloc, 14) == ("failed", 0));
    assert!(rt; failing_release(alloc, 15) == ("released", 0));
    Ok(())
}

// Whether a slot's 272 bytes begin with those of a text in hex, and are zero from there on.
fn is_slot(alloc: Global, bytes: &[u8], front: &str) -> bool {
    let Ok(mut slot) = decode(alloc, front.as_bytes()) else {
        return false;
    };
    slot.resize(272, 0).is_ok() && bytes == slot.as_slice()
}

// Whether two slots begin with these bytes.
fn are_slots(alloc: Global, bytes: &[u8], first: &str, second: &str) -> bool {
    match bytes.split_at_checked(272) {
        Some((front, back)) => is_slot(alloc, front, first) && is_slot(alloc, back, second),
        None => false,
    }
}

// Whether the slots of a ring of two begin with these bytes.
fn has_slots(alloc: Global, ring: Ring<MemoryMedium>, first: &str, second: &str) -> bool {
    let medium = ring.into_medium();
    are_slots(alloc, medium.content(), first, second)
}

// Gate, codec, the record's length, the sequence and the record, of which only the time isn't zero.
#[test]
fn the_bytes_of_a_slot(rt: HostRuntime) -> Result<(), Fail> {
    let alloc = rt.alloc();
    let ring = two_held(alloc, 99).ok_or("a ring")?;
    let (first, second) = (
        "a5081e00000000000000000000016b40d8ea30",
        "a5081e00000000000000010000016b40d8ea30",
    );
    assert!(rt; has_slots(alloc, ring, first, second));
    let mut ring = two_held(alloc, 99).ok_or("a ring")?;
    assert!(rt; releases(&mut ring));
    let (first, second) = (
        "00081e00000000000000000000016b40d8ea30",
        "00081e00000000000000010000016b40d8ea30",
    );
    assert!(rt; has_slots(alloc, ring, first, second));
    Ok(())
}

// A ring of three slots, all of them open.
fn filled(alloc: Global) -> Option<Ring<MemoryBench>> {
    let mut ring = formatted(alloc, 3)?;
    if stores(&mut ring, 3) {
        Some(ring)
    } else {
        None
    }
}

// The ring of three slots once its power came back.
fn powered_up(alloc: Global, ring: Ring<MemoryBench>) -> Option<Ring<MemoryBench>>
    ensures unarmed { IfSome result (λ r. r.medium.left ≡ unlimited) }
{
    match Ring::open(alloc, restarted(ring), 3) {
        Ok(ring) => Some(ring),
        Err(_) => None,
    }
}

// Whether a release fails that loses its power at the third gate.
fn cut_release(ring: &mut Ring<MemoryBench>, tear: Tear) -> Option<bool>
    requires unarmed { ring.old.medium.left ≡ unlimited }
{
    if ring.is_down() {
        return None;
    }
    let batch = ring.select(Order::Oldest, 90);
    if batch.is_empty() {
        return None;
    }
    ring.arm(2, tear);
    Some(ring.release(batch.as_slice()).is_err())
}

// A power loss at the third gate of a batch of three: whether the release failed, and how many are held afterwards.
fn release_cut(alloc: Global, tear: Tear) -> Option<(bool, u16)> {
    let mut ring = powered_up(alloc, filled(alloc)?)?;
    let failed = cut_release(&mut ring, tear)?;
    Some((failed, held_on(alloc, restarted(ring), 3)))
}

#[test]
fn a_power_loss_inside_a_release(rt: HostRuntime) -> Result<(), Fail> {
    let alloc = rt.alloc();
    assert!(rt; release_cut(alloc, Tear::New) == Some((true, 0)));
    assert!(rt; release_cut(alloc, Tear::Keep) == Some((true, 3)));
    Ok(())
}

// Makes room in a ring; how many are held then.
fn makes_room(ring: &mut Ring<MemoryBench>) -> Option<u16> {
    if ring.is_down() {
        return None;
    }
    match ring.make_room() {
        Ok(()) => Some(ring.held()),
        Err(_) => None,
    }
}

// The gate of each of three slots, and the last byte of the sequence of the last two.
fn gates(bytes: &[u8]) -> Option<[u8; 5]> {
    if bytes.len() != 816 {
        return None;
    }
    Some([bytes[0], bytes[272], bytes[282], bytes[544], bytes[554]])
}

// Room in a full ring: how many are held, and the gate and the sequence's last byte of each slot.
fn room_made(alloc: Global) -> Option<(u16, [u8; 5])> {
    let mut ring = filled(alloc)?;
    let held = makes_room(&mut ring)?;
    let bench = ring.into_medium();
    let gates = gates(bench.content())?;
    Some((held, gates))
}

#[test]
fn a_full_ring_makes_room(rt: HostRuntime) -> Result<(), Fail> {
    assert!(rt; room_made(rt.alloc()) == Some((2, [0, 0xa5, 1, 0xa5, 2])));
    Ok(())
}

// Two slots, of which the second is open and has the last sequence.
fn with_the_last_sequence(alloc: Global) -> Option<Vec<u8>> {
    let Ok(mut bytes) = vec![in alloc; 0u8; 544] else {
        return None;
    };
    if bytes.len() < 283 {
        return None;
    }
    bytes[272] = 0xa5;
    bytes[273] = 8;
    bytes[274] = 30;
    bytes[275] = 0x7f;
    for i in 276..283 {
        bytes[i] = 0xff;
    }
    Some(bytes)
}

// A ring of two slots over a medium of these bytes.
fn ring_of(alloc: Global, bytes: &[u8]) -> Option<Ring<MemoryMedium>> {
    let Ok(medium) = MemoryMedium::new(alloc, bytes, &[]) else {
        return None;
    };
    match Ring::open(alloc, medium, 2) {
        Ok(ring) => Some(ring),
        Err(_) => None,
    }
}

// Whether a record is refused where the sequence of an open slot is the last one.
fn spends_the_sequence(ring: &mut Ring<MemoryMedium>) -> bool {
    let last = ring.next_seq() == 1 << 63;
    last && store(ring) == Some(PutFault::SeqSpent) && !ring.is_down()
}

#[test]
fn a_spent_sequence_is_refused(rt: HostRuntime) -> Result<(), Fail> {
    let alloc = rt.alloc();
    let bytes = with_the_last_sequence(alloc).ok_or("ample memory")?;
    let mut ring = ring_of(alloc, &bytes).ok_or("a ring")?;
    assert!(rt; spends_the_sequence(&mut ring));
    Ok(())
}
