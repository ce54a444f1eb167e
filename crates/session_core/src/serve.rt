//! A connection, served to its end.
ghost use Rattle.std.specs.Prelude.{◌≡◌, ◌<◌, ◌≤◌, ◌^◌, ℕ, List, [], length};
ghost use Rattle.avl_values.specs.Causes.{Rose};
ghost use Rattle.session_core.specs.Endings.{Ends};
ghost use Rattle.session_core.specs.Knowing.{knows};
ghost use Rattle.session_core.specs.Serving.{IsServed};
ghost use Rattle.session_core.specs.Sessions.{IsReady, talk_of};
ghost use Rattle.session_core.specs.Works.{doing, meaning};

use crate::known::Known;
use crate::orders::Orders;
use crate::served::{Served, SessionEnd};
use crate::session::Session;
use crate::work::{Tally, take_piece};
use frame_channel::Link;
use shelf::Admit;
use std::alloc::Global;

// The most bytes that a session takes.
const LONGEST: u64 = 1 << 30;

// The most bytes of one read.
const PIECE: u64 = 4096;

// How a session ends at its link's end.
fn at_end(have: u32) -> SessionEnd
    ensures none { have ≡ 0 → result ≡ SessionEnd.Ended }
    ensures some { 0 < have → result ≡ SessionEnd.EndedInside have }
{
    if have == 0 {
        SessionEnd::Ended
    } else {
        SessionEnd::EndedInside { have }
    }
}

// Reads pieces until the session ends.
fn serve_all<L: Link, A: Admit, O: Orders>(
    link: &mut L,
    shelf: &mut A,
    known: &Known,
    orders: &mut O,
    session: &mut Session,
    tally: &mut Tally,
) -> SessionEnd
    requires ready { IsReady session.old }
    requires frames { tally.old.frames ≡ 0 }
    requires records { tally.old.records ≡ 0 }
    ensures ends { (bytes : List ℕ) × (length bytes ≤ 2 ^ 30) × Ends A.leaves (meaning O.gives O.asked O.told) (knows known.now) result bytes (L.state link.new) session.old.reader session.new.reader
        (doing (talk_of session.old orders.old) shelf.old (L.state link.old) tally.old) (doing (talk_of session.new orders.new) shelf.new (L.state link.new) tally.new) }
    ensures later { (L.state link.old).faults ≤ (L.state link.new).faults }
    ensures cause { result ≡ SessionEnd.LinkFault → Rose (L.state link.old).faults (L.state link.new).faults }
    ensures follows { L.follows link.old link.new }
{
    let mut buffer = [0; PIECE as usize];
    let mut taken: u64 = 0;
    while taken < LONGEST {
        let room = (LONGEST - taken).min(PIECE) as usize;
        match link.read(&mut buffer[..room]) {
            Err(_) => return SessionEnd::LinkFault,
            Ok(n) => {
                if n == 0 {
                    return at_end(session.have());
                }
                match take_piece(link, shelf, known, orders, session, tally, &buffer[..n]) {
                    Some(end) => return end,
                    None => {}
                }
                taken += n as u64;
            }
        }
    }
    SessionEnd::LongEnough { taken }
}

/// Serves a link to its end: hears its bytes, answers the login, admits each packet and then writes its count. After the login's
/// `01` and after each count it asks `orders` once, and it hands each response to them. NoMemory may come before anything was
/// taken.
pub fn serve_link<L: Link, A: Admit, O: Orders>(
    alloc: Global,
    link: &mut L,
    shelf: &mut A,
    known: &Known,
    orders: &mut O,
) -> Served
    ensures served { IsServed A.leaves A.calls A.mark (meaning O.gives O.asked O.told) (knows known.now) orders.old orders.new shelf.old shelf.new (L.state link.old) (L.state link.new) result }
    ensures later { (L.state link.old).faults ≤ (L.state link.new).faults }
    ensures cause { result.end ≡ SessionEnd.LinkFault → Rose (L.state link.old).faults (L.state link.new).faults }
    ensures follows { L.follows link.old link.new }
{
    let mut tally = Tally {
        frames: 0,
        records: 0,
    };
    let mut session = match Session::new(alloc) {
        Ok(session) => session,
        Err(_) => {
            return Served {
                imei: None,
                frames: 0,
                records: 0,
                end: SessionEnd::NoMemory,
            };
        }
    };
    let end = serve_all(link, shelf, known, orders, &mut session, &mut tally);
    Served {
        imei: session.imei(),
        frames: tally.frames,
        records: tally.records,
        end,
    }
}
