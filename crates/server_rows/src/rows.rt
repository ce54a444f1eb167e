//! What servers report, and what their archives have.
ghost use Rattle.std.specs.Prelude.{◌<◌};

use crate::doors_of_streams::{
    CODEC_8, CODEC_16, CODEC_16_FRONT, DEVICE, LOGIN, OTHER, OTHER_LOGIN, Stream, door, served_one,
    served_two, whole,
};
use avl_values::Imei;
use doors::{Door, MemoryDoor};
use links::Link;
use medium::MemoryMedium;
use server_loop::ServeReport;
use session_core::{Served, SessionEnd};
use std::alloc::Global;
use std::sync::Wait;
use std::test::Fail;
use std::thread::Threads;

type Report = ServeReport<MemoryDoor, MemoryMedium>;

// What is written for a login and one frame of one record.
const COUNTED_ONE: &[u8] = &[1, 0, 0, 0, 1];

// A session of this device with these counts.
fn session(device: u64, frames: u64, records: u64, end: SessionEnd) -> Served {
    Served {
        imei: Imei::from_number(device),
        frames,
        records,
        end,
    }
}

// Whether a worker reports just these sessions, and whether its door failed.
fn reports(report: &Report, worker: usize, sessions: &[Served], door_failed: bool) -> bool {
    if worker >= report.workers.len() {
        return false;
    }
    let told = report.workers.at(worker);
    if told.door_failed != door_failed || told.served.len() != sessions.len() {
        return false;
    }
    let mut same = true;
    for i in 0..sessions.len() {
        same = same && *told.served.at(i) == sessions[i];
    }
    same
}

// Whether both workers report just these sessions, whole, and have their links back, and this was written to their last ones.
fn both_report(report: &Report, sessions: &[Served], last: &[u8]) -> bool {
    reports(report, 0, sessions, false)
        && reports(report, 1, sessions, false)
        && has_back(report, 0, sessions.len(), (0, 0), last)
        && has_back(report, 1, sessions.len(), (0, 0), last)
}

// Whether a door has this number of links back, of accepts and of links that failed, and whether this was written to its last link.
fn has_back(report: &Report, door: usize, links: usize, faults: (u64, u64), last: &[u8]) -> bool {
    if door >= report.doors.len() {
        return false;
    }
    let door = &report.doors[door];
    if door.faults() != faults.0 || door.link_faults() != faults.1 {
        return false;
    }
    match door.ended() {
        [] => links == 0 && last.is_empty(),
        [.., link] => links == door.ended().len() && link.written() == last,
    }
}

// How many records the archive has, and of how many devices.
fn archive(report: &Report) -> (usize, u64) {
    (report.shelf.list().len(), report.shelf.devices())
}

#[test]
fn a_login_and_no_second_connection(rt: HostRuntime) -> Result<(), Fail> {
    let alloc = rt.alloc();
    let door = door(alloc, &[whole(&[LOGIN])], &[]).ok_or("a door")?;
    let report = served_one(&rt, alloc, door, 2).ok_or("a report")?;
    let sessions = [session(DEVICE, 0, 0, SessionEnd::Ended)];
    assert!(rt; reports(&report, 0, &sessions, true));
    assert!(rt; has_back(&report, 0, 1, (1, 0), &[1]));
    assert!(rt; archive(&report) == (0, 0));
    Ok(())
}

#[test]
fn one_device_at_two_doors(rt: HostRuntime) -> Result<(), Fail> {
    let alloc = rt.alloc();
    let stream = [whole(&[LOGIN, CODEC_8])];
    let first = door(alloc, &stream, &[]).ok_or("a door")?;
    let second = door(alloc, &stream, &[]).ok_or("a door")?;
    let report = served_two(&rt, alloc, first, second, 1).ok_or("a report")?;
    let sessions = [session(DEVICE, 1, 1, SessionEnd::Ended)];
    assert!(rt; both_report(&report, &sessions, COUNTED_ONE));
    assert!(rt; archive(&report) == (1, 1));
    Ok(())
}

#[test]
fn two_devices_at_two_doors(rt: HostRuntime) -> Result<(), Fail> {
    let alloc = rt.alloc();
    let first = door(alloc, &[whole(&[LOGIN, CODEC_8])], &[]).ok_or("a door")?;
    let second = door(alloc, &[whole(&[OTHER_LOGIN, CODEC_8])], &[]).ok_or("a door")?;
    let report = served_two(&rt, alloc, first, second, 1).ok_or("a report")?;
    let first = [session(DEVICE, 1, 1, SessionEnd::Ended)];
    let second = [session(OTHER, 1, 1, SessionEnd::Ended)];
    assert!(rt; reports(&report, 0, &first, false));
    assert!(rt; reports(&report, 1, &second, false));
    assert!(rt; archive(&report) == (2, 2));
    Ok(())
}

// The first connection breaks off inside its second frame, the next sends both again.
#[test]
fn a_frame_is_cut_and_sent_again(rt: HostRuntime) -> Result<(), Fail> {
    let alloc = rt.alloc();
    let streams = [
        whole(&[LOGIN, CODEC_8, CODEC_16_FRONT]),
        whole(&[LOGIN, CODEC_8, CODEC_16]),
    ];
    let first = door(alloc, &streams, &[]).ok_or("a door")?;
    let second = door(alloc, &streams, &[]).ok_or("a door")?;
    let report = served_two(&rt, alloc, first, second, 2).ok_or("a report")?;
    let sessions = [
        session(DEVICE, 1, 1, SessionEnd::EndedInside { have: 20 }),
        session(DEVICE, 2, 3, SessionEnd::Ended),
    ];
    assert!(rt; both_report(&report, &sessions, &[1, 0, 0, 0, 1, 0, 0, 0, 2]));
    assert!(rt; archive(&report) == (3, 1));
    Ok(())
}

// The first read of the first link fails.
#[test]
fn a_link_that_fails_ends_its_session_alone(rt: HostRuntime) -> Result<(), Fail> {
    let alloc = rt.alloc();
    let failing = Stream {
        parts: &[LOGIN, CODEC_8],
        failing: &[0],
    };
    let door = door(alloc, &[failing, whole(&[LOGIN, CODEC_8])], &[]).ok_or("a door")?;
    let report = served_one(&rt, alloc, door, 2).ok_or("a report")?;
    let failed = Served {
        imei: None,
        frames: 0,
        records: 0,
        end: SessionEnd::LinkFault,
    };
    let sessions = [failed, session(DEVICE, 1, 1, SessionEnd::Ended)];
    assert!(rt; reports(&report, 0, &sessions, false));
    assert!(rt; has_back(&report, 0, 2, (0, 1), COUNTED_ONE));
    assert!(rt; archive(&report) == (1, 1));
    Ok(())
}

// Whether of three connections those before this number are served, and the accept of this number fails.
fn stops_at<R: Threads + Wait + Sync>(rt: &R, alloc: Global, number: usize) -> Option<bool>
    requires { number < 3 }
{
    let stream = whole(&[LOGIN, CODEC_8]);
    let door = door(alloc, &[stream, stream, stream], &[number as u64])?;
    let report = served_one(rt, alloc, door, 3)?;
    let all = [session(DEVICE, 1, 1, SessionEnd::Ended); 3];
    let last: &[u8] = if number == 0 { &[] } else { COUNTED_ONE };
    Some(
        reports(&report, 0, &all[..number], true)
            && has_back(&report, 0, number, (1, 0), last)
            && archive(&report).0 == number.min(1),
    )
}

#[test]
fn each_accept_fails_in_turn(rt: HostRuntime) {
    let alloc = rt.alloc();
    assert!(rt; stops_at(&rt, alloc, 0) == Some(true));
    assert!(rt; stops_at(&rt, alloc, 1) == Some(true));
    assert!(rt; stops_at(&rt, alloc, 2) == Some(true));
}
