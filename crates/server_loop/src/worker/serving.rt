//! Workers at one desk, each in a thread of its own.
ghost use Rattle.std.specs.Prelude.{◌≡◌, ◌<◌, ◌≤◌, ◌^◌, [], false, length, map, All, IfOk, IfErr, vec_capacity};
ghost use Rattle.std.specs.Thread.{IsSync};
ghost use Rattle.shelf.specs.Shelf.{front};
ghost use Rattle.desk.specs.Desks.{opening, seats_of};
ghost use Rattle.session_core.specs.Knowing.{knows};
ghost use Rattle.server_loop.specs.Evidence.{ClosesWith};
ghost use Rattle.server_loop.specs.Staff.{AllReady, AllWorked, HasWorked, IsReady, door_of};
ghost use Rattle.server_loop.specs.Workers.{AreCaused, AreReports, HasServed};

use super::Worker;
use super::handing::{hand_back, rooms, staff};
use crate::report::{ServeReport, WorkerList, WorkerReport};
use crate::working::work;
use avl_values::NoMemory;
use desk::{Desk, DeskSeat};
use doors::Door;
use medium_model::Medium;
use session_core::Known;
use shelf::Shelf;
use std::alloc::Global;
use std::sync::Wait;
use std::thread;
use std::thread::Threads;

// A worker's sessions, each of which admits at the worker's seat.
fn work_at<R: Wait, D: Door, M: Medium>(
    rt: &R,
    alloc: Global,
    desk: &Desk<M>,
    known: &Known,
    sessions: u32,
    number: usize,
    worker: &mut Worker<D, M>,
)
    requires { IsReady D.state desk.now sessions number worker.old }
    ensures { HasWorked D.state D.L.state D.L.follows (knows known.now) desk.now sessions number worker.old worker.new }
{
    let _ = number;
    let seat = worker.seat.take().unwrap();
    let mut at = DeskSeat::new(rt, desk, seat);
    worker.failed = work(
        alloc,
        &mut worker.door,
        &mut at,
        known,
        sessions,
        &mut worker.served,
    );
    worker.seat = Some(at.into_seat());
}

// Each worker in a thread of its own.
fn run<R: Threads + Wait + Sync, D: Door + Send, M: Medium + Send>(
    rt: &R,
    alloc: Global,
    desk: &Desk<M>,
    known: &Known,
    sessions: u32,
    workers: &mut [Worker<D, M>],
)
where
    D::L: Send,
    requires some { 0 < length workers.old }
    requires ready { AllReady D.state desk.now sessions workers.old }
    ensures worked { AllWorked D.state D.L.state D.L.follows (knows known.now) desk.now sessions workers.old workers.new }
{
    let threads = workers.len();
    thread::for_each_mut(
        rt,
        workers,
        threads,
        &|i: usize, worker: &mut Worker<D, M>|
            requires { IsSync R.row × IsReady D.state desk.now sessions i worker.now }
            ensures { HasWorked D.state D.L.state D.L.follows (knows known.entry.now) desk.entry.now sessions i worker.entry.now worker.exit.now }
        { work_at(rt, alloc, desk, known, sessions, i, worker) },
    );
}

// The turns of all workers, and the shelf after them, with the doors and the reports.
fn turn_all<R: Threads + Wait + Sync, D: Door + Send, M: Medium + Send>(
    rt: &R,
    alloc: Global,
    desk: Desk<M>,
    known: &Known,
    sessions: u32,
    mut workers: Vec<Worker<D, M>>,
    doors: &mut Vec<D>,
    reports: &mut Vec<WorkerReport>,
) -> Shelf<M>
where
    D::L: Send,
    requires some { 0 < length workers.items }
    requires ready { AllReady D.state desk sessions workers.items }
    requires all { seats_of desk ≡ length workers.items }
    requires no_doors { doors.old.items ≡ [] }
    requires no_reports { reports.old.items ≡ [] }
    requires doors_room { length workers.items ≤ vec_capacity doors.old }
    requires reports_room { length workers.items ≤ vec_capacity reports.old }
    ensures served { HasServed D.L.state D.L.follows (knows known.now) sessions (opening desk) (front result) (map (λ w. D.state (door_of w)) workers.items) (map D.state doors.new.items) reports.new.items }
    ensures doors { length doors.new.items ≡ length workers.items }
{
    run(rt, alloc, &desk, known, sessions, workers.as_mut_slice());
    let seat = hand_back(&desk, workers, doors, reports);
    desk.close(seat)
}

/// Serves `sessions` connections of each door, with a worker for each door, in a thread of its own. A worker accepts its connections
/// one after the other, serves each to its end, gives its link back, and stops early exactly where its door's `accept` failed. All
/// admit on the one shelf, in turns. The memory for desk and reports is taken before the first accept: NoMemory comes only then, and
/// changes nothing. It may wait.
pub fn serve<R: Threads + Wait + Sync, D: Door + Send, M: Medium + Send>(
    rt: &R,
    alloc: Global,
    doors: Vec<D>,
    shelf: Shelf<M>,
    known: &Known,
    sessions: u32,
) -> Result<ServeReport<D, M>, (Vec<D>, Shelf<M>, NoMemory)>
where
    D::L: Send,
    requires some { 0 < length doors.items }
    requires few { length doors.items ≤ 64 }
    requires links { All (λ d. (D.state d).link_faults < 2 ^ 63) doors.items }
    requires some_sessions { 0 < sessions }
    requires few_sessions { sessions ≤ 100000 }
    requires up { shelf.down ≡ false }
    ensures closes { IfOk result (λ r. ClosesWith D.L.state D.L.follows (knows known.now) sessions (map D.state doors.items) (map D.state r.doors.items) r.workers (front shelf) (front r.shelf)) }
    ensures doors { IfOk result (λ r. length r.doors.items ≡ length doors.items) }

    // Each worker stops early exactly where its door failed, and its door's counts rose as it says.
    ensures reports { IfOk result (λ r. AreReports sessions (map D.state doors.items) (map D.state r.doors.items) r.workers) }

    // A session that ended by the archive tells of failures of its medium since the start.
    ensures media { IfOk result (λ r. AreCaused shelf.medium.faults r.shelf.medium.faults r.workers) }

    // Out of memory gives both back.
    ensures none_doors { IfErr result (λ e. e.0 ≡ doors) }
    ensures none_shelf { IfErr result (λ e. e.1 ≡ shelf) }
{
    let count = doors.len();
    let Ok(rooms) = rooms(alloc, count, sessions as usize) else {
        return Err((doors, shelf, NoMemory));
    };
    let Ok(mut workers) = Vec::with_capacity(alloc, count) else {
        return Err((doors, shelf, NoMemory));
    };
    let Ok(mut doors_back) = Vec::with_capacity(alloc, count) else {
        return Err((doors, shelf, NoMemory));
    };
    let Ok(mut reports) = Vec::with_capacity(alloc, count) else {
        return Err((doors, shelf, NoMemory));
    };
    match Desk::new(alloc, shelf, count as u32) {
        Err((shelf, no_memory)) => Err((doors, shelf, no_memory)),
        Ok((desk, seats)) => {
            staff(&desk, doors, seats, sessions as usize, rooms, &mut workers);
            let shelf = turn_all(
                rt,
                alloc,
                desk,
                known,
                sessions,
                workers,
                &mut doors_back,
                &mut reports,
            );
            Ok(ServeReport {
                doors: doors_back,
                shelf,
                workers: WorkerList::from_vec(reports),
            })
        }
    }
}
