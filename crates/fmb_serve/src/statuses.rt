//! The status that serving leaves.
ghost use Rattle.std.specs.Prelude.{◌≡◌, false, true};
ghost use Rattle.medium_model.specs.State.{IfTold};
ghost use Rattle.shelf.specs.Shelf.{HasList};
ghost use Rattle.fmb_serve.specs.Statuses.{any_door_failed, any_ran_out, is_out_of_memory, ran_out as ran_out_of, serving_status};

use fmb_io::{DONE, HOST_FAULT, MEDIUM_FAULT, NO_MEMORY};
use medium_model::Medium;
use server_loop::{ServedList, WorkerList};
use session_core::SessionEnd;
use shelf::Shelf;

fn is_out(end: SessionEnd) -> bool
    ensures { result ≡ is_out_of_memory end }
{
    matches!(end, SessionEnd::NoMemory)
}

fn ran_out(served: &ServedList) -> bool
    ensures { result ≡ ran_out_of served.now }
{
    'sessions: for i in 0..served.len() {
        if is_out(served.at(i).end) {
            return true;
        }
    }
    false
}

fn memory_failed(workers: &WorkerList) -> bool
    ensures { result ≡ any_ran_out workers.now }
{
    'workers: for i in 0..workers.len() {
        if ran_out(&workers.at(i).served) {
            return true;
        }
    }
    false
}

fn door_failed(workers: &WorkerList) -> bool
    ensures { result ≡ any_door_failed workers.now }
{
    'workers: for i in 0..workers.len() {
        if workers.at(i).door_failed {
            return true;
        }
    }
    false
}

/// The status of an archive that was served, with these workers' reports. An archive that has not failed reads as its list.
pub(crate) fn status_of<M: Medium>(shelf: &Shelf<M>, workers: &WorkerList) -> u8
    ensures status { result ≡ serving_status shelf.now.medium.faults workers.now }
    ensures reads { shelf.now.medium.faults ≡ 0 → IfTold shelf.now.medium.content (HasList shelf.now.list) }
{
    if shelf.is_down() || shelf.faults() != 0 {
        MEDIUM_FAULT
    } else if memory_failed(workers) {
        NO_MEMORY
    } else if door_failed(workers) {
        HOST_FAULT
    } else {
        DONE
    }
}
