ghost use Rattle.std.specs.Prelude.{IfSome};
ghost use Rattle.record_codecs.specs.SomeRecord.{IsSomeRecord};

use avl_values::{Codec, Failed, Imei, Rec};
use flash_ring::{Order, Ring};
use frame_channel::MemoryLink;
use medium::{Medium, MemoryBench};
use record_codecs::is_record;
use std::alloc::Global;
use tracker_session::{Losses, PlainShell, RoundEnd, Tracker};

const SLOTS: u16 = 4096;

/// The records of 30 bytes that one frame takes.
const BATCH: u16 = 42;

/// A list of lost records that takes none.
#[derive(Drop)]
struct NoLosses {
    faults: u64,
}

impl Losses for NoLosses {
    ghost use Rattle.std.specs.Prelude.{None};

    ghost state = { λ l. record { listed = None; faults = l.faults } };

    fn faults(&self) -> u64 {
        self.faults
    }

    fn list(&mut self, _rec: &Rec) -> Result<(), Failed> {
        self.faults = self.faults.saturating_add(1);
        Err(Failed)
    }
}

/// A Codec 8 record without elements.
fn sample() -> Option<Rec>
    ensures { IfSome result (λ r. IsSomeRecord r.codec r.bytes.items) }
{
    let bytes = [0; 30];
    if !is_record(Codec::C8, &bytes) {
        return None;
    }
    Some(Rec::new(Codec::C8, &bytes))
}

fn tracker(alloc: Global) -> Option<Tracker<MemoryBench>> {
    let Ok(mut bench) = MemoryBench::new(alloc) else {
        return None;
    };
    let Ok(()) = bench.reserve(272 * SLOTS as u64) else {
        return None;
    };
    let Ok(()) = Ring::format(&mut bench, SLOTS) else {
        return None;
    };
    let imei = Imei::from_number(356_307_042_441_013)?;
    let ring = Ring::open(alloc, bench, SLOTS).ok()?;
    Some(Tracker::new(imei, ring, Order::Oldest))
}

/// Keeps N records.
fn keep_all(tracker: &mut Tracker<MemoryBench>, records: u64) -> Option<()> {
    let rec = sample()?;
    let mut losses = NoLosses { faults: 0 };
    for _ in 0..records {
        if tracker.is_down() {
            return None;
        }
        tracker.keep(&rec, &mut losses).ok()?;
    }
    Some(())
}

/// One round of one batch, which is counted; how many records it had.
fn round(alloc: Global, tracker: &mut Tracker<MemoryBench>) -> Option<u64> {
    if tracker.is_down() {
        return None;
    }
    let batch = tracker.ring().held().min(BATCH) as u8;
    let mut link = MemoryLink::new(alloc, &[1, 0, 0, 0, batch], 5, 2048, &[]).ok()?;
    match tracker.round(&mut link, &mut PlainShell, 1) {
        Ok(RoundEnd::Done(n)) => Some(n as u64),
        _ => None,
    }
}

/// Sends N records in rounds of one batch each: how many rounds that took.
fn send_all(alloc: Global, tracker: &mut Tracker<MemoryBench>, records: u64) -> Option<u64> {
    let mut rounds: u64 = 0;
    let mut sent: u64 = 0;
    for _ in 0..records {
        if sent >= records {
            break;
        }
        sent = sent.saturating_add(round(alloc, tracker)?);
        rounds = rounds.saturating_add(1);
    }
    Some(rounds)
}

/// Keeps N records, up to 4,096, in a new ring, and sends them where that is asked for, N times: how many rounds that
/// took each time.
pub fn talk(alloc: Global, records: u64, times: u64, sends: bool) -> Option<(u64, u64)> {
    let mut rounds = 0;
    for _ in 0..times {
        let mut tracker = tracker(alloc)?;
        keep_all(&mut tracker, records)?;
        if sends {
            rounds = send_all(alloc, &mut tracker, records)?;
        }
    }
    Some((records, rounds))
}
