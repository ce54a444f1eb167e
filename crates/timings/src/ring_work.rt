ghost use Rattle.std.specs.Prelude.{◌<◌, IfSome};
ghost use Rattle.record_codecs.specs.SomeRecord.{IsSomeRecord};

use avl_values::{Codec, Rec};
use flash_ring::{Order, Ring};
use medium::{Medium, MemoryBench, MemoryMedium};
use record_codecs::is_record;
use std::alloc::Global;

const SLOTS: u16 = 4096;

/// A Codec 8 record without elements.
fn sample() -> Option<Rec>
    ensures { IfSome result (λ r. IsSomeRecord r.codec r.bytes.items) }
{
    let bytes = [0; 30];
    if !is_record(Codec::C8, &bytes) {
        return None;
    }
    Some(Rec::new(Codec::C8, &bytes))
}

fn formatted(alloc: Global) -> Option<Ring<MemoryBench>> {
    let Ok(mut bench) = MemoryBench::new(alloc) else {
        return None;
    };
    let Ok(()) = bench.reserve(272 * SLOTS as u64) else {
        return None;
    };
    let Ok(()) = Ring::format(&mut bench, SLOTS) else {
        return None;
    };
    Ring::open(alloc, bench, SLOTS).ok()
}

/// Puts a record, where there is room.
fn put<M: Medium>(ring: &mut Ring<M>, rec: &Rec) -> Option<()>
    requires { IsSomeRecord rec.now.codec rec.now.bytes.items }
{
    if ring.is_down() || ring.oldest_if_full().is_some() {
        return None;
    }
    ring.put(rec).ok()
}

/// Releases the oldest batch.
fn release<M: Medium>(ring: &mut Ring<M>, room: u16) -> Option<()> {
    if ring.is_down() {
        return None;
    }
    let batch = ring.select(Order::Oldest, room);
    if batch.is_empty() {
        return None;
    }
    ring.release(batch.as_slice()).ok()
}

/// Puts records and releases a batch after each N.
fn put_and_release(ring: &mut Ring<MemoryBench>, times: u64, each: u64, room: u16) -> Option<()>
    requires { 0 < each }
{
    let rec = sample()?;
    for n in 0..times {
        put(ring, &rec)?;
        if n % each == each - 1 {
            release(ring, room)?;
        }
    }
    Some(())
}

fn overwrite(ring: &mut Ring<MemoryBench>, times: u64) -> Option<()> {
    let rec = sample()?;
    for _ in 0..times {
        if ring.is_down() {
            return None;
        }
        ring.make_room().ok()?;
        put(ring, &rec)?;
    }
    Some(())
}

/// Selects batches of 255 slots, the oldest and the newest in turn.
fn select(ring: &Ring<MemoryBench>, times: u64) -> Option<()> {
    for n in 0..times {
        if ring.is_down() {
            return None;
        }
        let order = if n % 2 == 0 {
            Order::Oldest
        } else {
            Order::Newest
        };
        if ring.select(order, u16::MAX).len() != 255 {
            return None;
        }
    }
    Some(())
}

/// Writes N KiB onto a medium in memory, and syncs it after each.
pub fn write_medium(alloc: Global, blocks: u64) -> Option<(u64, u64)> {
    let Ok(mut medium) = MemoryMedium::new(alloc, &[], &[]) else {
        return None;
    };
    let block = [0xa5; 1024];
    for n in 0..blocks {
        let at = n.saturating_mul(1024);
        if medium.reserve(at.saturating_add(1024)).is_err() {
            return None;
        }
        medium.write(at, &block).ok()?;
        medium.sync().ok()?;
    }
    Some((blocks, blocks))
}

/// Works a ring of 4,096 slots in memory N times. `release` puts records, each released before the next; `rounds` puts them
/// into a ring that is half full, and releases a batch after each 40; `overwrite` puts them into a full ring; `select`
/// selects batches from a full ring that went round once and a half. Gives the times, and how many records are held at the end.
pub fn work(alloc: Global, what: &str, times: u64) -> Option<(u64, u64)> {
    let mut ring = formatted(alloc)?;
    match what {
        "release" => put_and_release(&mut ring, times, 1, 30)?,
        "overwrite" => {
            overwrite(&mut ring, 4096)?;
            overwrite(&mut ring, times)?
        }
        "rounds" => {
            overwrite(&mut ring, 2048)?;
            put_and_release(&mut ring, times, 40, 1200)?
        }
        "select" => {
            overwrite(&mut ring, 6144)?;
            select(&ring, times)?
        }
        _ => return None,
    }
    if ring.is_down() {
        return None;
    }
    Some((times, ring.held() as u64))
}
