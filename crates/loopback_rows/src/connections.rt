//! Many connections of several devices at two workers.
ghost use Rattle.std.specs.Prelude.{◌≡◌};
ghost use Rattle.std.specs.Thread.{IsSync};

use crate::device::{Device, new_device, record};
use crate::plans::{DEVICES, RECORDS};
use crate::server::{QuietDoor, Report, door, served_two};
use avl_values::Codec;
use doors::Door;
use server_loop::ServedList;
use session_core::SessionEnd;
use shelf::Stored;
use std::alloc::Global;
use std::net::{SocketAddr, TcpListener};
use std::sync::Wait;
use std::test::Fail;
use std::thread::{Threads, for_each_mut, join};

/// How many connections each of the two workers serves.
const EACH: u32 = 100;

/// How many threads the devices have.
const THREADS: usize = 4;

fn devices(alloc: Global) -> Option<Vec<Device>> {
    let mut devices = Vec::new(alloc);
    for number in 0..DEVICES as u64 {
        devices.push(new_device(number)?).ok()?;
    }
    Some(devices)
}

// All connections of all devices, and the devices after them.
fn run<R: Threads + Sync>(
    rt: &R,
    net: &HostRuntime,
    alloc: Global,
    address: SocketAddr,
    mut devices: Vec<Device>,
) -> Vec<Device> {
    for_each_mut(
        rt,
        devices.as_mut_slice(),
        THREADS,
        &|place: usize, device: &mut Device| device.run(net, alloc, address, place),
    );
    devices
}

// What two workers report, and the devices, after all connections.
fn both<R: Threads + Wait + Sync>(
    rt: &R,
    net: &HostRuntime,
    alloc: Global,
    first: QuietDoor,
    second: QuietDoor,
    address: SocketAddr,
) -> Option<(Report, Vec<Device>)>
    requires first { first.link_faults ≡ 0 }
    requires second { second.link_faults ≡ 0 }
{
    let devices = devices(alloc)?;
    let (report, devices) = join(
        rt,
        move || -> Option<Report>
            requires { IsSync R.row × (first.link_faults ≡ 0) × (second.link_faults ≡ 0) }
        { served_two(rt, alloc, first, second, EACH) },
        move || run(rt, net, alloc, address, devices),
    );
    Some((report?, devices))
}

/// How sessions ended.
#[derive(Clone, Copy, Debug, PartialEq, Eq, Drop)]
struct Ends {
    ended: u64,
    inside: u64,
    link_faults: u64,
    others: u64,
}

impl Ends {
    fn note(&mut self, end: SessionEnd) {
        let counted = match end {
            SessionEnd::Ended => &mut self.ended,
            SessionEnd::EndedInside { .. } => &mut self.inside,
            SessionEnd::LinkFault => &mut self.link_faults,
            _ => &mut self.others,
        };
        *counted = counted.saturating_add(1);
    }

    fn note_all(&mut self, served: &ServedList) {
        for i in 0..served.len() {
            self.note(served.at(i).end);
        }
    }
}

// How the sessions of all workers ended.
fn ends_of(report: &Report) -> Ends {
    let mut ends = Ends {
        ended: 0,
        inside: 0,
        link_faults: 0,
        others: 0,
    };
    for i in 0..report.workers.len() {
        ends.note_all(&report.workers.at(i).served);
    }
    ends
}

// Whether each worker served all its connections.
fn all_served(report: &Report) -> bool {
    let mut all = report.workers.len() == 2;
    for i in 0..report.workers.len() {
        let told = report.workers.at(i);
        all = all && !told.door_failed && told.served.len() == EACH as usize;
    }
    all
}

// How many accepts and how many links failed at the doors.
fn faults(report: &Report) -> (u64, u64) {
    report.doors.iter().fold((0u64, 0u64), |sum, door| {
        (
            sum.0.saturating_add(door.faults()),
            sum.1.saturating_add(door.link_faults()),
        )
    })
}

/// How all connections went, as their devices say.
#[derive(Clone, Copy, Debug, PartialEq, Eq, Drop)]
struct Went {
    cut: u64,
    unheard: u64,
    whole: u64,
}

/// How they are planned: of the first nine of each device three are cut, three not heard to the end, and three whole, and so is the last.
const PLANNED: Went = Went {
    cut: 60,
    unheard: 60,
    whole: 80,
};

fn sum_of(devices: &[Device]) -> Went {
    let mut sum = Went {
        cut: 0,
        unheard: 0,
        whole: 0,
    };
    for device in devices {
        sum.cut = sum.cut.saturating_add(device.cut);
        sum.unheard = sum.unheard.saturating_add(device.unheard);
        sum.whole = sum.whole.saturating_add(device.whole);
    }
    sum
}

// How many records of this device are listed, which are its first ones in their order; None where they aren't.
fn in_order(list: &[Stored], device: &Device) -> Option<u64> {
    let mut next: u64 = 0;
    for stored in list {
        if stored.imei() == device.imei {
            let rec = stored.rec();
            if rec.codec() != Codec::C8 || rec.bytes() != record(next).as_slice() {
                return None;
            }
            next = next.saturating_add(1);
        }
    }
    Some(next)
}

// Whether a device has heard the count of each of its records, and each is listed once.
fn has_all_once(list: &[Stored], device: &Device) -> bool {
    device.counted == RECORDS && in_order(list, device) == Some(RECORDS)
}

#[test]
fn two_workers_200_connections(rt: HostRuntime) -> Result<(), Fail> {
    let alloc = rt.alloc();
    let listener = TcpListener::bind(&rt, "127.0.0.1:0")?;
    let address = listener.local_addr()?;
    let second = listener.try_clone()?;
    let (report, devices) = both(&rt, &rt, alloc, door(listener), door(second), address).ok_or(
        "a report",
    )?;
    assert!(rt; all_served(&report));
    let list = report.shelf.list();
    assert!(rt; devices.iter().all(|device| has_all_once(list, device)));
    assert_eq!(rt; list.len() as u64, DEVICES as u64 * RECORDS);
    let went = sum_of(&devices);
    let ends = ends_of(&report);
    assert_eq!(rt; went, PLANNED);
    assert_eq!(rt; (ends.inside, ends.others), (PLANNED.cut, 0));
    assert!(rt; ends.link_faults <= PLANNED.unheard);
    assert_eq!(rt; faults(&report), (0, ends.link_faults));
    Ok(())
}
