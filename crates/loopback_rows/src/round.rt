//! One device's round.
ghost use Rattle.std.specs.Prelude.{◌≡◌, IfSome};
ghost use Rattle.std.specs.Thread.{IsSync};
ghost use Rattle.record_codecs.specs.SomeRecord.{IsSomeRecord};

use crate::server::{QuietDoor, Report, SILENCE_SECONDS, door, served_one};
use avl_values::{Codec, Failed, Imei, MediumFault, Rec};
use doors::Door;
use flash_ring::{Order, Ring};
use frame_channel::Link;
use medium::{Medium, MemoryMedium};
use record_codecs::is_record;
use session_core::{Served, SessionEnd};
use shelf::Stored;
use std::alloc::Global;
use std::net::{TcpListener, TcpStream};
use std::sync::Wait;
use std::test::Fail;
use std::thread::{Threads, join};
use std::time::Duration;
use tcp_edge::{StreamLink, prepare};
use tracker_session::{Kept, Losses, PlainShell, RoundEnd, Tracker};

const DEVICE: u64 = 356_307_042_441_013;

/// The times of the records, one second apart.
const TIMES: [u64; 3] = [1_560_161_086_000, 1_560_161_087_000, 1_560_161_088_000];

const SLOTS: u16 = 16;

type Held = Tracker<MemoryMedium>;

// The Codec 8 record of a time, without elements, whose other fields are 0.
fn bytes_at(time: u64) -> [u8; 30] {
    let mut bytes = [0; 30];
    bytes[..8].copy_from_slice(&time.to_be_bytes());
    bytes
}

fn record_at(time: u64) -> Option<Rec>
    ensures { IfSome result (λ r. IsSomeRecord r.codec r.bytes.items) }
{
    let bytes = bytes_at(time);
    if !is_record(Codec::C8, &bytes) {
        return None;
    }
    Some(Rec::new(Codec::C8, &bytes))
}

/// Takes no record: nothing is to be lost.
#[derive(Drop)]
struct NoLosses {
    faults: u64,
}

impl Losses for NoLosses {
    ghost use Rattle.std.specs.Prelude.{None};

    ghost state = { λ l. record { listed = None; faults = l.faults } };

    fn faults(&self) -> u64 {
        self.faults
    }

    fn list(&mut self, _rec: &Rec) -> Result<(), Failed> {
        self.faults = self.faults.saturating_add(1);
        Err(Failed)
    }
}

// A ring on an empty flash in memory.
fn ring(alloc: Global) -> Option<Ring<MemoryMedium>> {
    let mut flash = MemoryMedium::new(alloc, &[], &[]).ok()?;
    flash.reserve(272 * SLOTS as u64).ok()?;
    Ring::format(&mut flash, SLOTS).ok()?;
    match Ring::open(alloc, flash, SLOTS) {
        Ok(ring) => Some(ring),
        Err(_) => None,
    }
}

// Keeps the record of a time, where the ring is up.
fn keep(tracker: &mut Held, time: u64) -> Option<Kept> {
    let record = record_at(time)?;
    if tracker.is_down() {
        return None;
    }
    tracker.keep(&record, &mut NoLosses { faults: 0 }).ok()
}

// A device that keeps the records.
fn with_records(alloc: Global) -> Option<Held> {
    let ring = ring(alloc)?;
    let mut tracker = Tracker::new(Imei::from_number(DEVICE)?, ring, Order::Oldest);
    for time in TIMES {
        keep(&mut tracker, time)?;
    }
    Some(tracker)
}

/// How a round ended, how many bytes went up and down, and how many records are held before and after it.
#[derive(Debug, PartialEq, Eq, Clone, Copy, Drop)]
struct Seen {
    ended: Result<RoundEnd, MediumFault>,
    up: u64,
    down: u64,
    held: (u16, u16),
}

// How many records are held, or 99 where the ring is down.
fn held(tracker: &Held) -> u16 {
    if tracker.is_down() {
        return 99;
    }
    tracker.ring().held()
}

// A round over a stream.
fn round(mut tracker: Held, stream: TcpStream) -> Option<Seen> {
    let before = held(&tracker);
    let mut link = StreamLink::new(stream, None);
    if tracker.is_down() {
        return None;
    }
    let ended = tracker.round(&mut link, &mut PlainShell, 64);
    Some(Seen {
        ended,
        up: link.written(),
        down: link.taken(),
        held: (before, held(&tracker)),
    })
}

// Serves one session at the door in a thread of its own, while the device has its round in this one.
fn both<R: Threads + Wait + Sync>(
    rt: &R,
    alloc: Global,
    door: QuietDoor,
    tracker: Held,
    stream: TcpStream,
) -> Option<(Report, Seen)>
    requires { door.link_faults ≡ 0 }
{
    let (report, seen) = join(
        rt,
        move || -> Option<Report>
            requires { IsSync R.row × (door.link_faults ≡ 0) }
        { served_one(rt, alloc, door, 1) },
        move || round(tracker, stream),
    );
    Some((report?, seen?))
}

// Whether the server reports one session of the device, with all its records in one frame, and its door and its link never failed.
fn reports_the_device(report: &Report) -> bool {
    let session = Served {
        imei: Imei::from_number(DEVICE),
        frames: 1,
        records: 3,
        end: SessionEnd::Ended,
    };
    if report.workers.len() != 1 || report.doors.len() != 1 {
        return false;
    }
    let told = report.workers.at(0);
    let door = &report.doors[0];
    !told.door_failed
        && told.served.len() == 1
        && *told.served.at(0) == session
        && door.faults() == 0
        && door.link_faults() == 0
}

// Whether this is the device's record of a time.
fn is_record_at(stored: &Stored, time: u64) -> bool {
    stored.imei().number() == DEVICE
        && stored.rec().codec() == Codec::C8
        && stored.rec().bytes() == bytes_at(time).as_slice()
}

// Whether the archive has just the device's records, in their order.
fn has_the_records(list: &[Stored]) -> bool {
    match list {
        [first, second, third] => {
            is_record_at(first, TIMES[0])
                && is_record_at(second, TIMES[1])
                && is_record_at(third, TIMES[2])
        }
        _ => false,
    }
}

// The login has 17 bytes, and the frame of three records 105; its answer has one, and the count four.
const WHOLE: Seen = Seen {
    ended: Ok(RoundEnd::Done(3)),
    up: 122,
    down: 5,
    held: (3, 0),
};

#[test]
fn a_device_and_a_server_in_one_process(rt: HostRuntime) -> Result<(), Fail> {
    let alloc = rt.alloc();
    let listener = TcpListener::bind(&rt, "127.0.0.1:0")?;
    let stream = TcpStream::connect(&rt, listener.local_addr()?)?;
    prepare(&stream, Duration::from_secs(SILENCE_SECONDS));
    let tracker = with_records(alloc).ok_or("three records")?;
    let (report, seen) = both(&rt, alloc, door(listener), tracker, stream).ok_or(
        "a report and a round",
    )?;
    assert_eq!(rt; seen, WHOLE);
    assert!(rt; reports_the_device(&report));
    assert!(rt; has_the_records(report.shelf.list()));
    Ok(())
}
