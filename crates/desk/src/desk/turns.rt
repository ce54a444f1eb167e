ghost use Rattle.std.specs.Prelude.{◌≡◌, ◌↔◌, ◌≤◌, ◌<◌, ◌^◌, ◌++◌, false, [], length, IfOk, IfErr, vec_capacity};
ghost use Rattle.record_layout.specs.Body.{IsBody};
ghost use Rattle.record_layout.specs.RecordsOf.{count_of};
ghost use Rattle.record_layout.specs.declared.head.PacketHead.{PacketHead};
ghost use Rattle.shelf.specs.Calls.{brought_by, no_mark};
ghost use Rattle.shelf.specs.Entries.{IsLegalLog, StandsAfter, calls_by};
ghost use Rattle.shelf.specs.Shelf.{front};
ghost use Rattle.desk.specs.Desks.{IsSeatOf, AreNewSeats, opening, seats_of, seen, numbers};
ghost use Rattle.desk.specs.Refusals.{AllFaultless, CarriesAbove, HasFault, IsDown, before_last};
ghost use Rattle.desk.specs.Seen.{AreJoined, Extends};
ghost use Rattle.desk.specs.Steps.{HasTurn};
ghost use Rattle.desk.specs.Views.{IsAlone, first_view};
ghost use Rattle.desk.specs.Views.Stage.{Idle};

use super::{Desk, SERVING, Seat, TICKET, Token};
use crate::view::Opening;
use atomic_table::{Refused, Table};
use avl_values::{Imei, NoMemory};
use medium_model::Medium;
use shelf::{AdmitFault, Receipt, Shelf};
use std::alloc::Global;
use std::marker::Brand;
use std::snapshot::Snapshot;
use std::sync::Wait;
use std::thread;
use std::time::Duration;

/// How often a seat sleeps at most while others have a ticket. Then it draws one all the same. 64 seats whose calls take a millisecond and
/// a half each come round in that time; where calls take longer, the wait for a sleeper to wake counts for little.
const NAPS: u32 = 50;
/// For how many milliseconds at most it sleeps each time.
const NAP: u64 = 2;
/// How often a seat with a ticket looks before it sleeps until the turn is passed on.
const LOOKS: u32 = 50;

// The low 32 bits, which is what sleeping goes by.
fn low_half(word: u64) -> u32 {
    (word % 2u64.pow(32)) as u32
}

impl<M: Medium> Desk<M> {
    /// A desk with as many seats as asked, numbered from 0. Without memory the shelf comes back.
    pub fn new(
        alloc: Global,
        shelf: Shelf<M>,
        seats: u32,
    ) -> Result<(Desk<M>, Vec<Seat<M>>), (Shelf<M>, NoMemory)>
        requires up { shelf.down ≡ false }
        requires some { 0 < seats }
        requires few { seats ≤ 64 }
        ensures desk { IfOk result (λ r. opening r.0 ≡ front shelf) }
        ensures count { IfOk result (λ r. seats_of r.0 ≡ seats) }
        ensures all { IfOk result (λ r. length r.1.items ≡ seats) }
        ensures seats { IfOk result (λ r. AreNewSeats r.0 r.1.items) }
        ensures none { IfErr result (λ e. e.0 ≡ shelf) }
    {
        let Ok(places) = Vec::with_capacity(alloc, seats as usize) else {
            return Err((shelf, NoMemory));
        };
        let Ok(mut slots) = Vec::with_capacity(alloc, 1) else {
            return Err((shelf, NoMemory));
        };
        let about = Opening {
            shelf: Snapshot::of(&shelf),
            seats: u64::from(seats),
        };
        slots.push_reserved(Some(shelf));
        match Table::new(alloc, &[0, 0], slots, &about) {
            Ok((table, token)) => {
                let desk = Desk { table };
                let places = desk.hand_out(token, places, seats);
                Ok((desk, places))
            }
            Err(Refused { mut slots }) => Err((slots.pop().unwrap().unwrap(), NoMemory)),
        }
    }

    // A seat for each number: each split gives the first that is left.
    fn hand_out(&self, mut token: Token<M>, mut places: Vec<Seat<M>>, seats: u32) -> Vec<Seat<M>>
        requires table { token.table_id ≡ self.now.table.shared.table_id }
        requires first { token.me ≡ (first_view (opening self.now) seats, []) }
        requires some { 0 < seats }
        requires empty { places.items ≡ [] }
        requires room { seats ≤ vec_capacity places }
        ensures all { length result.items ≡ seats }
        ensures seats { AreNewSeats self.now result.items }
    {
        for _ in 1..seats {
            let other = self.split(&mut token);
            places.push_reserved(Seat { token: other });
        }
        places.push_reserved(Seat { token });
        places
    }

    /// Waits for its turn, and admits the records of a data body for a device on the one shelf.
    pub fn admit<R: Wait>(
        &self,
        rt: &R,
        seat: &mut Seat<M>,
        imei: Imei,
        body: &[u8],
    ) -> Result<Receipt, AdmitFault>
        requires seat { IsSeatOf self.now seat.old }
        requires few { length body.now ≤ 2 ^ 31 }
        requires accepted { (head : PacketHead) × IsBody head body.now }
        ensures seat { IsSeatOf self.now seat.new }
        ensures numbers { numbers seat.new ≡ numbers seat.old }
        ensures history { Extends (opening self.now) (numbers seat.old) (brought_by no_mark imei body.now result) (seen seat.old) (seen seat.new) }
        ensures receipt { IfOk result (λ r. r.count ≡ count_of body.now) }

        // Down comes exactly where an earlier call of the history returned MediumFault.
        ensures down { IsDown result ↔ HasFault (before_last (seen seat.new)) }

        // Down and MediumFault carry a count above the one at the start.
        ensures fault { CarriesAbove (opening self.now).faults result }
    {
        let token = &mut seat.token;
        self.wait_turn(rt, token);
        let mut shelf = self.take(token);
        let result = Shelf::admit(&mut shelf, imei, body);
        self.give_back(token, shelf);
        self.publish::<Brand>(token, imei, body, &result);
        result
    }

    // Draws a ticket, and looks again until it is its turn: a while at once, and then whenever the turn was passed on.
    fn wait_turn<R: Wait>(&self, rt: &R, token: &mut Token<M>)
        requires table { token.old.table_id ≡ self.now.table.shared.table_id }
        requires idle { IsAlone Idle token.old.me.0 }
        requires bare { token.old.me.1 ≡ [] }
        ensures table { token.new.table_id ≡ token.old.table_id }
        ensures turn { HasTurn token.old.me token.new.me }
    {
        self.wait_to_draw(rt);
        let ticket = self.draw(token);
        let mut looks: u32 = 0;
        for _ in rt.forever() {
            let serving = self.look(token);
            if serving == ticket {
                return;
            }
            if looks < LOOKS {
                looks += 1;
                thread::yield_now();
            } else {
                self.table.shared.park(rt, SERVING, low_half(serving));
            }
        }
        unreachable!()
    }

    // Sleeps while others have a ticket, so that the turn goes round among few seats, which are awake. Where the turn is passed on and nobody
    // has a ticket, one that sleeps here is woken.
    fn wait_to_draw<R: Wait>(&self, rt: &R) {
        let shared = &self.table.shared;
        let nap = Duration::from_millis(NAP);
        for _ in 0..NAPS {
            let serving = shared.peek(SERVING);
            let ticket = shared.peek(TICKET);
            if ticket == serving {
                return;
            }
            shared.park_timeout(rt, TICKET, low_half(ticket), nap);
        }
    }

    /// One seat for both: it keeps what both have seen.
    pub fn join(&self, one: Seat<M>, other: Seat<M>) -> Seat<M>
        requires one { IsSeatOf self.now one }
        requires other { IsSeatOf self.now other }
        ensures seat { IsSeatOf self.now result }
        ensures numbers { numbers result ≡ numbers one ++ numbers other }
        ensures history { AreJoined (seen one) (numbers one) (seen other) (numbers other) (seen result) }
    {
        let Seat { mut token } = one;
        let Seat { token: other } = other;
        self.join_tokens(&mut token, other);
        Seat { token }
    }

    /// The shelf, as the calls that the seat has seen left it: all calls of the desk.
    pub fn close(self, seat: Seat<M>) -> Shelf<M>
        requires seat { IsSeatOf self seat }
        requires all { length (numbers seat) ≡ seats_of self }
        ensures shelf { StandsAfter (opening self) (seen seat) (front result) }
        ensures legal { IsLegalLog (opening self) (seen seat) }
        ensures whole { calls_by (numbers seat) (seen seat) ≡ seen seat }

        // No fault was answered over a medium that never failed.
        ensures faultless { result.medium.faults ≡ 0 → AllFaultless (seen seat) }
    {
        let Desk { table } = self;
        let Seat { token } = seat;
        let mut closed = table.close_with(token);
        let shelf = closed.take(0).unwrap();
        closed.free();
        shelf
    }
}
