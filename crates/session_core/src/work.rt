//! What a session does for an item and for a piece.
ghost use Rattle.std.specs.Prelude.{◌≡◌, ◌+◌, ◌*◌, ◌<◌, ◌≤◌, ◌^◌, length, take, true, false, not, ℕ, [], ◌∷◌, Some, OnOk, OnErr, IfNone, IfSome};
ghost use Rattle.avl_values.specs.Causes.{HasCause, Rose};
ghost use Rattle.links.specs.Links.{Moves, WritesPart};
ghost use Rattle.record_layout.specs.declared.head.PacketHead.{PacketHead};
ghost use Rattle.record_layout.specs.RecordsOf.{count_of};
ghost use Rattle.frame_layout.specs.Readings.{IsFramedPacket, IsFramedCommand};
ghost use Rattle.frame_layout.specs.Values.{login, packet};
ghost use Rattle.command_layout.specs.Answers.{value_in};
ghost use Rattle.command_layout.specs.declared.way.Way.TheVariants.{Up};
ghost use Rattle.session_core.specs.Doings.{Does, StopsAt};
ghost use Rattle.session_core.specs.Knowing.{knows};
ghost use Rattle.session_core.specs.Sessions.{IsReady, Owes, talk_of};
ghost use Rattle.session_core.specs.Talks.{device, nobody, or_nothing, told_by};
ghost use Rattle.session_core.specs.Works.{Greets, Took, doing, meaning};

use crate::known::Known;
use crate::orders::Orders;
use crate::served::SessionEnd;
use crate::session::{Session, Step};
use arrayvec::ArrayVec;
use avl_values::{Failed, Imei};
use command_codecs::{Way, read_command};
use frame_channel::{Link, send};
use shelf::{Admit, AdmitFault};

/// The counts that were written whole, and their sum.
#[derive(Clone, Copy)]
pub struct Tally {
    pub frames: u64,
    pub records: u64,
}

// Asks for an order, and writes its frame.
fn ask<L: Link, O: Orders>(link: &mut L, orders: &mut O, imei: Imei) -> Result<(), Failed>
    ensures orders { orders.new ≡ O.asked orders.old imei }
    ensures whole { OnOk result (Moves [] (or_nothing (O.gives orders.old imei)) (L.state link.old).told (L.state link.new).told) }
    ensures part { OnErr result (WritesPart (or_nothing (O.gives orders.old imei)) (L.state link.old).told (L.state link.new).told) }
    ensures cause { HasCause (L.state link.old).faults (L.state link.new).faults result }
    ensures follows { L.follows link.old link.new }
{
    let mut frame = ArrayVec::<u8, 1280>::new();
    if orders.next(imei, &mut frame) {
        send(link, &frame)
    } else {
        Ok(())
    }
}

// Answers a login.
fn greet<L: Link, O: Orders>(
    link: &mut L,
    known: &Known,
    orders: &mut O,
    session: &mut Session,
    imei: Imei,
) -> Option<SessionEnd>
    requires { Owes session.old }
    ensures session { session.new ≡ record session.old { owes = false; refused = not (knows known.now imei) } }
    ensures greets { Greets (meaning O.gives O.asked O.told) (knows known.now) imei orders.old (L.state link.old).told result orders.new (L.state link.new).told }
    ensures later { (L.state link.old).faults ≤ (L.state link.new).faults }
    ensures cause { result ≡ Some SessionEnd.LinkFault → Rose (L.state link.old).faults (L.state link.new).faults }
    ensures follows { L.follows link.old link.new }
{
    let knows = known.has(imei);
    let answer = session.answer_login(knows);
    if send(link, &[answer]).is_err() {
        return Some(SessionEnd::LinkFault);
    }
    if !knows {
        return Some(SessionEnd::Unknown { imei });
    }
    match ask(link, orders, imei) {
        Ok(()) => None,
        Err(_) => Some(SessionEnd::LinkFault),
    }
}

// Tells the orders of a response.
fn tell<O: Orders>(orders: &mut O, imei: Imei, body: &[u8])
    requires { IsFramedCommand Up body.now }
    ensures { orders.new ≡ told_by (meaning O.gives O.asked O.told) orders.old imei (value_in Up body.now) }
{
    match read_command(body, Way::Up) {
        Ok(response) => orders.heard(imei, &response),
        Err(_) => unreachable!(),
    }
}

// Admits a packet, and writes its count.
fn store<L: Link, A: Admit, O: Orders>(
    link: &mut L,
    shelf: &mut A,
    orders: &mut O,
    session: &mut Session,
    tally: &mut Tally,
    imei: Imei,
) -> Option<SessionEnd>
    requires owes { Owes session.old }
    requires framed { (head : PacketHead) × IsFramedPacket head session.old.reader.body }
    requires frames { tally.old.frames < 2 ^ 32 }
    requires records { tally.old.records < 2 ^ 40 }
    ensures session { IfNone result (session.new ≡ record session.old { owes = false }) }
    ensures same { (session.new.imei ≡ session.old.imei) × (session.new.refused ≡ session.old.refused) }
    ensures done { (known : ℕ → _) (head : PacketHead) → IfNone result (Does A.leaves (meaning O.gives O.asked O.told) known (packet head session.old.reader.body ∷ []) []
        (doing (device imei orders.old) shelf.old (L.state link.old) tally.old) (doing (device imei orders.new) shelf.new (L.state link.new) tally.new)) }
    ensures stopped { (known : ℕ → _) (head : PacketHead) → IfSome result (λ end. StopsAt A.leaves (meaning O.gives O.asked O.told) known end (packet head session.old.reader.body)
        (doing (device imei orders.old) shelf.old (L.state link.old) tally.old) (doing (device imei orders.new) shelf.new (L.state link.new) tally.new)) }
    ensures few { (tally.new.frames ≤ tally.old.frames + 1) × (tally.new.records ≤ tally.old.records + 255) }
    ensures later { (L.state link.old).faults ≤ (L.state link.new).faults }
    ensures cause { result ≡ Some SessionEnd.LinkFault → Rose (L.state link.old).faults (L.state link.new).faults }
    ensures follows { L.follows link.old link.new }
{
    let receipt = match shelf.admit(imei, session.body()) {
        Ok(receipt) => receipt,
        Err(AdmitFault::Down { faults }) => return Some(SessionEnd::Down { faults }),
        Err(AdmitFault::NoMemory) => return Some(SessionEnd::NoMemory),
        Err(AdmitFault::MediumFault { faults }) => return Some(SessionEnd::MediumFault { faults }),
    };
    let count = session.answer_packet(&receipt);
    if send(link, &count).is_err() {
        return Some(SessionEnd::LinkFault);
    }
    tally.frames += 1;
    tally.records += u64::from(receipt.count);
    match ask(link, orders, imei) {
        Ok(()) => None,
        Err(_) => Some(SessionEnd::LinkFault),
    }
}

// Hears at most one item, and does all that it wants.
fn take_one<L: Link, A: Admit, O: Orders>(
    link: &mut L,
    shelf: &mut A,
    known: &Known,
    orders: &mut O,
    session: &mut Session,
    tally: &mut Tally,
    rest: &[u8],
) -> (usize, Option<SessionEnd>)
    requires ready { IsReady session.old }
    requires some { 0 < length rest.now }
    requires frames { tally.old.frames < 2 ^ 32 }
    requires records { tally.old.records < 2 ^ 40 }
    ensures took { (0 < result.0) × (result.0 ≤ length rest.now) }
    ensures did { Took A.leaves (meaning O.gives O.asked O.told) (knows known.now) result.1 (take result.0 rest.now) session.old session.new
        (doing (talk_of session.old orders.old) shelf.old (L.state link.old) tally.old) (doing (talk_of session.new orders.new) shelf.new (L.state link.new) tally.new) }
    ensures few { (tally.new.frames ≤ tally.old.frames + 1) × (tally.new.records ≤ tally.old.records + 255) }
    ensures later { (L.state link.old).faults ≤ (L.state link.new).faults }
    ensures cause { result.1 ≡ Some SessionEnd.LinkFault → Rose (L.state link.old).faults (L.state link.new).faults }
    ensures follows { L.follows link.old link.new }
{
    let (n, step) = session.hear(rest);
    match step {
        Step::More => (n, None),
        Step::Broken(found) => (n, Some(SessionEnd::Broken(found))),
        Step::Login(imei) => (n, greet(link, known, orders, session, imei)),
        Step::Packet => match session.imei() {
            Some(imei) => (n, store(link, shelf, orders, session, tally, imei)),
            None => unreachable!(),
        },
        Step::Response => match session.imei() {
            Some(imei) => {
                tell(orders, imei, session.body());
                (n, None)
            }
            None => unreachable!(),
        },
    }
}

/// Hears a piece, and does all that it wants.
pub fn take_piece<L: Link, A: Admit, O: Orders>(
    link: &mut L,
    shelf: &mut A,
    known: &Known,
    orders: &mut O,
    session: &mut Session,
    tally: &mut Tally,
    piece: &[u8],
) -> Option<SessionEnd>
    requires ready { IsReady session.old }
    requires frames { tally.old.frames + length piece.now < 2 ^ 32 }
    requires records { tally.old.records + 255 * length piece.now < 2 ^ 40 }
    ensures did { Took A.leaves (meaning O.gives O.asked O.told) (knows known.now) result piece.now session.old session.new
        (doing (talk_of session.old orders.old) shelf.old (L.state link.old) tally.old) (doing (talk_of session.new orders.new) shelf.new (L.state link.new) tally.new) }
    ensures few { (tally.new.frames ≤ tally.old.frames + length piece.now) × (tally.new.records ≤ tally.old.records + 255 * length piece.now) }
    ensures later { (L.state link.old).faults ≤ (L.state link.new).faults }
    ensures cause { result ≡ Some SessionEnd.LinkFault → Rose (L.state link.old).faults (L.state link.new).faults }
    ensures follows { L.follows link.old link.new }
{
    let mut at = 0;
    while at < piece.len() {
        let (n, end) = take_one(link, shelf, known, orders, session, tally, &piece[at..]);
        at += n;
        match end {
            Some(end) => return Some(end),
            None => {}
        }
    }
    None
}
