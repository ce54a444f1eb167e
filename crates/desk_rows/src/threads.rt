ghost use Rattle.std.specs.Prelude.{◌≡◌, ◌+◌, false, length, IfSome};
ghost use Rattle.std.specs.Thread.{IsSync};
ghost use Rattle.desk_rows.specs.Seats.{AreSeats, AreTwo, StandsForSeats};

use crate::packets::{DEVICE, OTHER, admit_at, over_nothing};
use crate::seats::next_seat;
use avl_values::Imei;
use desk::{Desk, Seat};
use medium::MemoryMedium;
use shelf::{AdmitFault, Receipt, Shelf, Stored};
use std::alloc::{AllocError, Global};
use std::sync::Wait;
use std::test::Fail;
use std::thread::{Threads, join};

const CALLS: u64 = 1_000;

// What the calls of some seats were answered.
#[derive(Clone, Copy, Drop)]
struct Tally {
    stored: u64,
    down: u64,
    failed: u64,
    no_memory: u64,
}

impl Tally {
    fn none() -> Tally {
        Tally {
            stored: 0,
            down: 0,
            failed: 0,
            no_memory: 0,
        }
    }

    fn note(&mut self, answer: Option<Result<Receipt, AdmitFault>>) {
        let counted = match answer {
            Some(Ok(_)) => &mut self.stored,
            Some(Err(AdmitFault::Down { .. })) => &mut self.down,
            Some(Err(AdmitFault::MediumFault { .. })) => &mut self.failed,
            Some(Err(AdmitFault::NoMemory)) | None => &mut self.no_memory,
        };
        *counted = counted.saturating_add(1);
    }

    fn and(self, other: Tally) -> Tally {
        Tally {
            stored: self.stored.saturating_add(other.stored),
            down: self.down.saturating_add(other.down),
            failed: self.failed.saturating_add(other.failed),
            no_memory: self.no_memory.saturating_add(other.no_memory),
        }
    }
}

// A Codec 8 body of two records without elements: one that every seat brings, and one of this seat's own.
fn body(alloc: Global, who: u8, call: u64) -> Result<Vec<u8>, AllocError> {
    let [.., high, low] = call.to_be_bytes();
    let mut bytes = Vec::with_capacity(alloc, 63)?;
    bytes.extend_from_slice(&[0x08, 2])?;
    for first in [0, who] {
        bytes.extend_from_slice(&[0, 0, 0, first, 0, 0, high, low])?;
        bytes.extend_from_slice(&[0; 22])?;
    }
    bytes.push(2)?;
    Ok(bytes)
}

// One call of a seat; None where the body is none, or out of memory.
fn call<R: Wait>(
    rt: &R,
    alloc: Global,
    desk: &Desk<MemoryMedium>,
    seat: &mut Seat<MemoryMedium>,
    who: u8,
    number: u64,
) -> Option<Result<Receipt, AdmitFault>>
    requires { StandsForSeats desk.now 1 seat.old }
    ensures { StandsForSeats desk.now 1 seat.new }
{
    let device = if number % 2 == 0 { DEVICE } else { OTHER };
    let imei = Imei::from_number(device)?;
    let Ok(body) = body(alloc, who, number) else {
        return None;
    };
    admit_at(rt, desk, seat, imei, body.as_slice())
}

// A seat after its calls, and what they were answered.
#[derive(Drop)]
struct Served {
    seat: Seat<MemoryMedium>,
    tally: Tally,
}

// The calls of one seat, which take the devices in turn.
fn one<R: Wait>(
    rt: &R,
    alloc: Global,
    desk: &Desk<MemoryMedium>,
    mut seat: Seat<MemoryMedium>,
    who: u8,
) -> Served
    requires { StandsForSeats desk.now 1 seat }
    ensures { StandsForSeats desk.now 1 result.seat }
{
    let mut tally = Tally::none();
    for number in 0..CALLS {
        tally.note(call(rt, alloc, desk, &mut seat, who, number));
    }
    Served { seat, tally }
}

// Both of two that were served.
fn both(desk: &Desk<MemoryMedium>, one: Served, other: Served, each: u32) -> Served
    requires one { StandsForSeats desk.now each one.seat }
    requires other { StandsForSeats desk.now each other.seat }
    ensures { StandsForSeats desk.now (each + each) result.seat }
{
    let _ = each;
    let tally = one.tally.and(other.tally);
    Served {
        seat: desk.join(one.seat, other.seat),
        tally,
    }
}

// Two seats.
#[derive(Drop)]
struct Pair {
    first: Seat<MemoryMedium>,
    second: Seat<MemoryMedium>,
}

// Two of these seats.
fn next_pair(desk: &Desk<MemoryMedium>, seats: &mut Vec<Seat<MemoryMedium>>) -> Option<Pair>
    requires { AreSeats desk.now seats.old.items }
    ensures pair { IfSome result (λ p. AreTwo desk.now p.first p.second) }
    ensures left { AreSeats desk.now seats.new.items }
{
    let first = next_seat(desk, seats)?;
    let second = next_seat(desk, seats)?;
    Some(Pair { first, second })
}

// Two seats, each in a thread of its own.
fn two<R: Threads + Wait + Sync>(
    rt: &R,
    alloc: Global,
    desk: &Desk<MemoryMedium>,
    seats: Pair,
    who: u8,
) -> Served
    requires { AreTwo desk.now seats.first seats.second }
    ensures { StandsForSeats desk.now 2 result.seat }
{
    let Pair { first, second } = seats;
    let (left, right) = join(
        rt,
        move || -> Served
            requires { IsSync R.row × StandsForSeats desk.now 1 first }
            ensures { StandsForSeats desk.entry.now 1 result.seat }
        { one(rt, alloc, desk, first, who) },
        move || -> Served
            requires { IsSync R.row × StandsForSeats desk.now 1 second }
            ensures { StandsForSeats desk.entry.now 1 result.seat }
        { one(rt, alloc, desk, second, who.saturating_add(1)) },
    );
    both(desk, left, right, 1)
}

// Four seats, each in a thread of its own.
fn four<R: Threads + Wait + Sync>(
    rt: &R,
    alloc: Global,
    desk: &Desk<MemoryMedium>,
    first: Pair,
    second: Pair,
    who: u8,
) -> Served
    requires first { AreTwo desk.now first.first first.second }
    requires second { AreTwo desk.now second.first second.second }
    ensures { StandsForSeats desk.now 4 result.seat }
{
    let (left, right) = join(
        rt,
        move || -> Served
            requires { IsSync R.row × AreTwo desk.now first.first first.second }
            ensures { StandsForSeats desk.entry.now 2 result.seat }
        { two(rt, alloc, desk, first, who) },
        move || -> Served
            requires { IsSync R.row × AreTwo desk.now second.first second.second }
            ensures { StandsForSeats desk.entry.now 2 result.seat }
        { two(rt, alloc, desk, second, who.saturating_add(2)) },
    );
    both(desk, left, right, 2)
}

// Eight of these seats, each in a thread of its own.
fn eight<R: Threads + Wait + Sync>(
    rt: &R,
    alloc: Global,
    desk: &Desk<MemoryMedium>,
    seats: &mut Vec<Seat<MemoryMedium>>,
) -> Option<Served>
    requires { AreSeats desk.now seats.old.items }
    ensures { IfSome result (λ s. StandsForSeats desk.now 8 s.seat) }
{
    let first = next_pair(desk, seats)?;
    let second = next_pair(desk, seats)?;
    let third = next_pair(desk, seats)?;
    let fourth = next_pair(desk, seats)?;
    let (left, right) = join(
        rt,
        move || -> Served
            requires { IsSync R.row × AreTwo desk.now first.first first.second × AreTwo desk.now second.first second.second }
            ensures { StandsForSeats desk.entry.now 4 result.seat }
        { four(rt, alloc, desk, first, second, 1) },
        move || -> Served
            requires { IsSync R.row × AreTwo desk.now third.first third.second × AreTwo desk.now fourth.first fourth.second }
            ensures { StandsForSeats desk.entry.now 4 result.seat }
        { four(rt, alloc, desk, third, fourth, 5) },
    );
    Some(both(desk, left, right, 4))
}

// What eight seats of one desk were answered, and the closed shelf.
fn at_one_desk<R: Threads + Wait + Sync>(
    rt: &R,
    alloc: Global,
    shelf: Shelf<MemoryMedium>,
) -> Option<(Tally, Shelf<MemoryMedium>)>
    requires { shelf.down ≡ false }
{
    let Ok((desk, mut seats)) = Desk::new(alloc, shelf, 8) else {
        return None;
    };
    let Served { seat, tally } = eight(rt, alloc, &desk, &mut seats)?;
    Some((tally, desk.close(seat)))
}

// The seat of a record, 0 for one that each seat brings, and the call that brought it.
fn brought_by(record: &Stored) -> (u8, u64) {
    match record.rec().bytes() {
        [_, _, _, who, _, _, high, low, ..] => (*who, u64::from(*high) * 256 + u64::from(*low)),
        _ => (255, 0),
    }
}

// How many records of this seat are listed, which are those of its first calls in their order; None where they aren't.
fn in_order(list: &[Stored], who: u8) -> Option<u64> {
    let mut next: u64 = 0;
    for record in list {
        let (seat, call) = brought_by(record);
        if seat == who {
            if call != next {
                return None;
            }
            next = next.saturating_add(1);
        }
    }
    Some(next)
}

// How many records of each seat are listed, in its order, and of those that each seat brings.
fn each_in_order(list: &[Stored]) -> Option<[u64; 9]> {
    let mut counts = [0; 9];
    for who in 0..9 {
        counts[who] = in_order(list, who as u8)?;
    }
    Some(counts)
}

#[test]
fn eight_threads_at_one_desk(rt: HostRuntime) -> Result<(), Fail> {
    let alloc = rt.alloc();
    let shelf = over_nothing(alloc, 1_000_000).ok_or("a shelf")?;
    assert!(rt; !shelf.is_down());
    let (tally, shelf) = at_one_desk(&rt, alloc, shelf).ok_or("a desk")?;
    assert_eq!(rt; tally.stored, 8 * CALLS);
    assert_eq!(rt; shelf.list().len(), 9_000);
    assert!(rt; each_in_order(shelf.list()) == Some([CALLS; 9]));
    Ok(())
}

#[test]
fn eight_threads_over_a_medium_that_fails(rt: HostRuntime) -> Result<(), Fail> {
    let alloc = rt.alloc();
    let shelf = over_nothing(alloc, 4_000).ok_or("a shelf")?;
    assert!(rt; !shelf.is_down());
    let (tally, shelf) = at_one_desk(&rt, alloc, shelf).ok_or("a desk")?;
    assert!(rt; shelf.is_down());
    assert_eq!(rt; (tally.failed, tally.no_memory), (1, 0));
    assert_eq!(rt; tally.stored.saturating_add(tally.down), 8 * CALLS - 1);
    let counts = each_in_order(shelf.list()).ok_or("an order")?;
    let own = counts
        .iter()
        .skip(1)
        .fold(0u64, |sum, n| sum.saturating_add(*n));
    assert_eq!(rt; own, tally.stored);
    Ok(())
}
