ghost use Rattle.desk.specs.Desks.{AreSeatsOf};

use crate::bodies::timed_body;
use avl_values::Imei;
use desk::{Desk, DeskSeat, Seat};
use medium::MemoryMedium;
use record_codecs::read_packet;
use shelf::{Admit, Shelf};
use std::alloc::Global;
use std::sync::Wait;
use std::thread;
use std::thread::Threads;

const RECORDS: u8 = 40;

/// A seat at the desk, with the first of its calls, how many there are, and how many were stored.
#[derive(Drop)]
struct Session<'a, R: Wait> {
    at: DeskSeat<'a, R, MemoryMedium>,
    first: u64,
    calls: u64,
    stored: u64,
}

impl<'a, R: Wait> Session<'a, R> {
    /// Admits a packet; whether it was stored.
    fn admit(&mut self, alloc: Global, number: u64) -> bool {
        let Ok(body) = timed_body(alloc, number.saturating_mul(u64::from(RECORDS)), RECORDS) else {
            return false;
        };
        let Some(imei) = Imei::from_number(number % 1_000) else {
            return false;
        };
        if body.len() > 10_000 {
            return false;
        }
        match read_packet(&body) {
            Ok(_) => self.at.admit(imei, &body).is_ok(),
            Err(_) => false,
        }
    }

    fn run(&mut self, alloc: Global) {
        for call in 0..self.calls {
            let number = self.first.saturating_add(call);
            if self.admit(alloc, number) {
                self.stored = self.stored.saturating_add(1);
            }
        }
    }
}

/// A session for each seat.
fn seated<'a, R: Wait>(
    rt: &'a R,
    alloc: Global,
    desk: &'a Desk<MemoryMedium>,
    mut places: Vec<Seat<MemoryMedium>>,
    seats: u64,
    calls: u64,
) -> Option<Vec<Session<'a, R>>>
    requires { AreSeatsOf desk.now places.items }
{
    let mut sessions = Vec::new(alloc);
    for number in 0..seats {
        let seat = places.pop()?;
        let session = Session {
            at: DeskSeat::new(rt, desk, seat),
            first: number.saturating_mul(1_000_000),
            calls,
            stored: 0,
        };
        sessions.push(session).ok()?;
    }
    Some(sessions)
}

/// Runs each session in a thread of its own; how many packets were stored.
fn run_all<R: Threads + Wait + Sync>(
    rt: &R,
    alloc: Global,
    sessions: &mut [Session<'_, R>],
) -> u64 {
    let count = sessions.len().max(1);
    thread::for_each_mut(
        rt,
        sessions,
        count,
        &|_: usize, session: &mut Session<'_, R>| session.run(alloc),
    );
    let mut stored: u64 = 0;
    for session in sessions.iter() {
        stored = stored.saturating_add(session.stored);
    }
    stored
}

/// Makes the calls by N seats of one desk, each in a thread of its own; how many packets were stored.
fn at_desk<R: Threads + Wait + Sync>(
    rt: &R,
    alloc: Global,
    shelf: Shelf<MemoryMedium>,
    calls: u64,
    seats: u64,
) -> Option<u64> {
    if shelf.is_down() || seats < 1 || seats > 64 {
        return None;
    }
    let Ok((desk, places)) = Desk::new(alloc, shelf, seats as u32) else {
        return None;
    };
    let mut sessions = seated(rt, alloc, &desk, places, seats, calls / seats)?;
    Some(run_all(rt, alloc, sessions.as_mut_slice()))
}

/// Admits N packets of 40 records, over a medium in memory, by N seats; how many were stored, and by how many seats.
pub fn admit<R: Threads + Wait + Sync>(
    rt: &R,
    alloc: Global,
    calls: u64,
    seats: u64,
) -> Option<(u64, u64)> {
    let Ok(medium) = MemoryMedium::new(alloc, &[], &[]) else {
        return None;
    };
    let Ok(shelf) = Shelf::open(alloc, medium) else {
        return None;
    };
    Some((at_desk(rt, alloc, shelf, calls, seats)?, seats))
}
