//! What workers are made of, and what is left of them.
ghost use Rattle.std.specs.Prelude.{◌≡◌, ◌≤◌, ◌<◌, ◌++◌, [], None, length, map, All, IfOk, IfSome, vec_capacity};
ghost use Rattle.desk.specs.Desks.{AreNewSeats, IsSeatOf, numbers, seen};
ghost use Rattle.desk.specs.Seen.{AreJoined};
ghost use Rattle.server_loop.specs.Staff.{AllSeated, AllStaffed, HasRoom, IsSeatOfAll, door_of, report_of};

use super::Worker;
use crate::report::{ServedList, WorkerReport};
use avl_values::NoMemory;
use desk::{Desk, Seat};
use doors::Door;
use medium_model::Medium;
use session_core::Served;
use std::alloc::Global;

// Room for the reports of `count` workers.
pub(super) fn rooms(
    alloc: Global,
    count: usize,
    sessions: usize,
) -> Result<Vec<Vec<Served>>, NoMemory>
    ensures count { IfOk result (λ rooms. length rooms.items ≡ count) }
    ensures rooms { IfOk result (λ rooms. All (HasRoom sessions) rooms.items) }
{
    let mut rooms = Vec::with_capacity(alloc, count)?;
    for _ in 0..count {
        rooms.push_reserved(Vec::with_capacity(alloc, sessions)?);
    }
    Ok(rooms)
}

// A worker for each door, with a new seat.
pub(super) fn staff<D: Door, M: Medium>(
    desk: &Desk<M>,
    doors: Vec<D>,
    mut seats: Vec<Seat<M>>,
    sessions: usize,
    mut rooms: Vec<Vec<Served>>,
    workers: &mut Vec<Worker<D, M>>,
)
    requires seats { AreNewSeats desk.now seats.items }
    requires seats_count { length seats.items ≡ length doors.items }
    requires rooms { All (HasRoom sessions) rooms.items }
    requires rooms_count { length rooms.items ≡ length doors.items }
    requires empty { workers.old.items ≡ [] }
    requires room { length doors.items ≤ vec_capacity workers.old }
    ensures doors { map door_of workers.new.items ≡ doors.items }
    ensures staffed { AllStaffed desk.now sessions workers.new.items }
{
    let _ = desk;
    let _ = sessions;
    seats.reverse();
    for door in doors {
        let seat = seats.pop().unwrap();
        let served = rooms.pop().unwrap();
        workers.push_reserved(Worker {
            door,
            seat: Some(seat),
            served,
            failed: false,
        });
    }
}

// One seat for both, where there is one before.
fn join_next<M: Medium>(desk: &Desk<M>, before: Option<Seat<M>>, seat: Seat<M>) -> Seat<M>
    requires before { IfSome before (λ b. IsSeatOf desk.now b) }
    requires seat { IsSeatOf desk.now seat }
    ensures seat { IsSeatOf desk.now result }
    ensures none { before ≡ None → result ≡ seat }
    ensures numbers { IfSome before (λ b. numbers result ≡ numbers b ++ numbers seat) }
    ensures history { IfSome before (λ b. AreJoined (seen b) (numbers b) (seen seat) (numbers seat) (seen result)) }
{
    match before {
        None => seat,
        Some(before) => desk.join(before, seat),
    }
}

// The doors and the reports, in order, and one seat for all workers.
pub(super) fn hand_back<D: Door, M: Medium>(
    desk: &Desk<M>,
    workers: Vec<Worker<D, M>>,
    doors: &mut Vec<D>,
    reports: &mut Vec<WorkerReport>,
) -> Seat<M>
    requires some { 0 < length workers.items }
    requires seated { AllSeated desk.now workers.items }
    requires no_doors { doors.old.items ≡ [] }
    requires no_reports { reports.old.items ≡ [] }
    requires doors_room { length workers.items ≤ vec_capacity doors.old }
    requires reports_room { length workers.items ≤ vec_capacity reports.old }
    ensures doors { doors.new.items ≡ map door_of workers.items }
    ensures reports { reports.new.items ≡ map report_of workers.items }
    ensures seat { IsSeatOfAll desk.now workers.items result }
{
    let mut joined = None;
    for worker in workers {
        let Worker {
            door,
            seat,
            served,
            failed,
        } = worker;
        doors.push_reserved(door);
        reports.push_reserved(WorkerReport {
            served: ServedList::from_vec(served),
            door_failed: failed,
        });
        joined = Some(join_next(desk, joined, seat.unwrap()));
    }
    joined.unwrap()
}
