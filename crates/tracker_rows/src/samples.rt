//! A tracker over a bench in memory, with some records.
ghost use Rattle.std.specs.Prelude.{◌≡◌, ◌≤◌, IfSome, OnErr, OnOk};
ghost use Rattle.avl_values.specs.Causes.{HasCause};
ghost use Rattle.medium_model.specs.CallsLeft.{unlimited};
ghost use Rattle.record_codecs.specs.SomeRecord.{IsSomeRecord};

use avl_values::{Codec, Failed, Imei, Rec};
use flash_ring::{Order, Ring};
use medium::{Medium, MemoryBench};
use record_codecs::is_record;
use std::alloc::Global;
use tracker_session::{Kept, Losses, Tracker};

/// The device 356307042441013.
pub const IMEI: u64 = 356_307_042_441_013;

// A record without elements, of 30 bytes in Codec 8 and 38 in Codec 8 Extended.
pub fn sample(codec: Codec, seconds: u8) -> Option<Rec>
    ensures { IfSome result (λ r. IsSomeRecord r.codec r.bytes.items) }
{
    let mut bytes = [0; 38];
    bytes[7] = seconds;
    let length = match codec {
        Codec::C8 => 30,
        Codec::C8E => 38,
        Codec::C16 => 32,
    };
    if !is_record(codec, &bytes[..length]) {
        return None;
    }
    Some(Rec::new(codec, &bytes[..length]))
}

/// Counts what is listed. It fails where it was told to.
#[derive(Drop)]
pub struct Listing {
    pub listed: u64,
    pub fails: bool,
    faults: u64,
}

impl Listing {
    pub fn new(fails: bool) -> Listing {
        Listing {
            listed: 0,
            fails,
            faults: 0,
        }
    }
}

impl Losses for Listing {
    ghost use Rattle.std.specs.Prelude.{None};

    ghost state = { λ l. record { listed = None; faults = l.faults } };

    fn faults(&self) -> u64 {
        self.faults
    }

    fn list(&mut self, _rec: &Rec) -> Result<(), Failed> {
        if self.fails {
            self.faults = self.faults.saturating_add(1);
            return Err(Failed);
        }
        self.listed = self.listed.saturating_add(1);
        Ok(())
    }
}

/// A tracker over a ring of N slots, formatted on a bench.
pub fn tracker_of(alloc: Global, slots: u16) -> Option<Tracker<MemoryBench>>
    requires some { 1 ≤ slots }
    requires few { slots ≤ 4096 }
{
    let Ok(mut bench) = MemoryBench::new(alloc) else {
        return None;
    };
    let Ok(()) = bench.reserve(272 * slots as u64) else {
        return None;
    };
    let Ok(()) = Ring::format(&mut bench, slots) else {
        return None;
    };
    let imei = Imei::from_number(IMEI)?;
    match Ring::open(alloc, bench, slots) {
        Ok(ring) => Some(Tracker::new(imei, ring, Order::Oldest)),
        Err(_) => None,
    }
}

/// Keeps a record, where the ring is up.
pub fn keep<M: Medium>(
    tracker: &mut Tracker<M>,
    codec: Codec,
    losses: &mut Listing,
) -> Option<Kept> {
    let rec = sample(codec, 1)?;
    if tracker.is_down() {
        return None;
    }
    tracker.keep(&rec, losses).ok()
}

/// A tracker with records of these codecs.
pub fn with_records(alloc: Global, codecs: &[Codec]) -> Option<Tracker<MemoryBench>> {
    let mut tracker = tracker_of(alloc, 16)?;
    let mut losses = Listing::new(false);
    for codec in codecs {
        keep(&mut tracker, *codec, &mut losses)?;
    }
    Some(tracker)
}

/// How many records are held, or 99 where the ring is down.
pub fn held<M: Medium>(tracker: &Tracker<M>) -> u16 {
    if tracker.is_down() {
        return 99;
    }
    tracker.ring().held()
}
