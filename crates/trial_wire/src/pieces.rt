//! What a session of the server does with the bytes that it is given.
ghost use Rattle.std.specs.Prelude.{◌≡◌, ◌<◌, ◌≤◌, ℕ, List, false, length, not, IfNone, IsNone};
ghost use Rattle.frame_layout.specs.Readings.{IsFramedPacket};
ghost use Rattle.record_layout.specs.declared.head.PacketHead.{PacketHead};
ghost use Rattle.session_core.specs.Knowing.{knows};
ghost use Rattle.session_core.specs.Sessions.{Owes};
ghost use Rattle.trial_wire.specs.Hearing.{Gives, HasTaken};
ghost use Rattle.trial_wire.specs.Steps.{Greets, Stores};

use avl_values::{ByteList, Imei};
use medium_model::Medium;
use session_core::{Known, Session, Step};
use shelf::{AdmitFault, Shelf};
use trial_model::ServerEnd;

// Answers a login.
fn greet(session: &mut Session, known: &Known, imei: Imei, down: &mut ByteList) -> Option<ServerEnd>
    requires { Owes session.old }
    ensures session { session.new ≡ record session.old { owes = false; refused = not (knows known.now imei) } }
    ensures greets { Greets (knows known.now imei) imei down.old down.new result }
{
    let knows = known.has(imei);
    let answer = session.answer_login(knows);
    if down.push(answer).is_err() {
        return Some(ServerEnd::NoMemory);
    }
    if knows {
        None
    } else {
        Some(ServerEnd::Unknown { imei })
    }
}

// Admits a packet, and writes its count.
fn store<M: Medium>(
    session: &mut Session,
    shelf: &mut Shelf<M>,
    imei: Imei,
    down: &mut ByteList,
) -> Option<ServerEnd>
    requires owes { Owes session.old }
    requires framed { (head : PacketHead) × IsFramedPacket head session.old.reader.body }
    ensures session { IfNone result (session.new ≡ record session.old { owes = false }) }
    ensures stores { Stores imei session.old.reader.body shelf.old shelf.new down.old down.new result }
{
    let receipt = match shelf.admit(imei, session.body()) {
        Ok(receipt) => receipt,
        Err(AdmitFault::Down { faults }) => return Some(ServerEnd::Down { faults }),
        Err(AdmitFault::NoMemory) => return Some(ServerEnd::NoMemory),
        Err(AdmitFault::MediumFault { faults }) => return Some(ServerEnd::MediumFault { faults }),
    };
    let count = session.answer_packet(&receipt);
    match down.extend_from_slice(&count) {
        Ok(()) => None,
        Err(_) => Some(ServerEnd::NoMemory),
    }
}

// Hears at most one item, and does all that it wants.
fn give_one<M: Medium>(
    session: &mut Session,
    shelf: &mut Shelf<M>,
    known: &Known,
    piece: &[u8],
    down: &mut ByteList,
) -> (usize, Option<ServerEnd>)
    requires going { (bytes : List ℕ) × HasTaken bytes session.old }
    requires some { 0 < length piece.now }
    ensures took { (0 < result.0) × (result.0 ≤ length piece.now) }
    ensures gives { (bytes : List ℕ) → HasTaken bytes session.old → Gives (knows known.now) bytes piece.now result.0 session.new shelf.old shelf.new down.old down.new result.1 }
{
    let (n, step) = session.hear(piece);
    match step {
        Step::More => (n, None),
        Step::Response => (n, None),
        Step::Broken(found) => (n, Some(ServerEnd::Broken(found))),
        Step::Login(imei) => (n, greet(session, known, imei, down)),
        Step::Packet => match session.imei() {
            Some(imei) => (n, store(session, shelf, imei, down)),
            None => unreachable!(),
        },
    }
}

/// Gives a session that goes on a piece of the stream up, and says how many bytes of it the session took, and how it ended, if it
/// did: the login is answered, and each data frame is admitted to the shelf and then counted. What it writes is appended to `down`.
/// NoMemory as its end is a growth that was refused: the trial can't go on then.
pub fn give<M: Medium>(
    session: &mut Session,
    shelf: &mut Shelf<M>,
    known: &Known,
    piece: &[u8],
    down: &mut ByteList,
) -> (usize, Option<ServerEnd>)
    requires going { (bytes : List ℕ) × HasTaken bytes session.old }
    ensures took { result.0 ≤ length piece.now }
    ensures all { IsNone result.1 → result.0 ≡ length piece.now }
    ensures gives { (bytes : List ℕ) → HasTaken bytes session.old → Gives (knows known.now) bytes piece.now result.0 session.new shelf.old shelf.new down.old down.new result.1 }
{
    let mut at = 0;
    while at < piece.len() {
        let (n, end) = give_one(session, shelf, known, &piece[at..], down);
        at += n;
        if end.is_some() {
            return (at, end);
        }
    }
    (at, None)
}
