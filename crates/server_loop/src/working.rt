//! A worker's loop, over any door and wherever it admits.
ghost use Rattle.std.specs.Prelude.{◌≡◌, ◌+◌, ◌-◌, ◌<◌, ◌≤◌, ◌^◌, [], vec_capacity};
ghost use Rattle.session_core.specs.Knowing.{knows};
ghost use Rattle.server_loop.specs.Connections.{Works};
ghost use Rattle.server_loop.specs.Progress.{Next};

use doors::Door;
use session_core::{Known, NoOrders, Served, serve_link};
use shelf::Admit;
use std::alloc::Global;

// Serves the next connection from its accept to its end. None where accepting failed.
fn serve_next<D: Door, A: Admit>(
    alloc: Global,
    door: &mut D,
    shelf: &mut A,
    known: &Known,
) -> Option<Served>
    requires count { (D.state door.old).link_faults < 2 ^ 64 - 1 }
    ensures next { Next D.L.state D.L.follows (knows known.now) A.leaves A.mark (D.state door.old) (D.state door.new) shelf.old shelf.new result }
{
    match door.accept() {
        Err(_) => None,
        Ok(mut link) => {
            let served = serve_link(alloc, &mut link, shelf, known, &mut NoOrders);
            door.done(link);
            Some(served)
        }
    }
}

/// Serves `sessions` connections of a door, one after the other, each to its end, and says whether it stopped before the last since
/// accepting failed. It takes memory only inside a session.
pub fn work<D: Door, A: Admit>(
    alloc: Global,
    door: &mut D,
    shelf: &mut A,
    known: &Known,
    sessions: u32,
    served: &mut Vec<Served>,
) -> bool
    requires empty { served.old.items ≡ [] }
    requires room { sessions ≤ vec_capacity served.old }
    requires counts { (D.state door.old).link_faults + sessions < 2 ^ 64 }
    ensures works { Works D.L.state D.L.follows (knows known.now) A.leaves A.mark sessions (D.state door.old) (D.state door.new) shelf.old shelf.new served.new.items result }
{
    for _ in 0..sessions {
        match serve_next(alloc, door, shelf, known) {
            Some(one) => served.push_reserved(one),
            None => return true,
        }
    }
    false
}
