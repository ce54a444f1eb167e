ghost use Rattle.std.specs.Prelude.{◌≡◌, ◌↔◌, ◌⊎◌, ℕ, ◌<◌, ◌≤◌, ◌^◌, [], true, false, length, OnOk, OnErr, IfErr, IfOk, IsOk, IsErrOf, IsSome};
ghost use Rattle.avl_values.specs.Causes.{Rose};
ghost use Rattle.avl_values.specs.Record.{Record};
ghost use Rattle.avl_values.specs.Viewed.{record_of};
ghost use Rattle.medium_model.specs.CallsLeft.{Fails, after, unlimited};
ghost use Rattle.medium_model.specs.Content.{after_sync};
ghost use Rattle.medium_model.specs.PowerLoss.{EveryImage, WasImage};
ghost use Rattle.medium_model.specs.Images.{IsEither};
ghost use Rattle.medium_model.specs.State.{CountedSome, IfTold, IsRestarted, told};
ghost use Rattle.record_codecs.specs.SomeRecord.{IsSomeRecord};
ghost use Rattle.frame_layout.specs.Items.{IsLogin};
ghost use Rattle.flash_ring.specs.Entries.{held_of};
ghost use Rattle.flash_ring.specs.Held.{is_full, next_of};
ghost use Rattle.flash_ring.specs.Refusal.{Refuses};
ghost use Rattle.flash_ring.specs.Ring.{EverySound, IsDurable, MayHold};
ghost use Rattle.flash_ring.specs.Slot.{IsFlash, slots_of};
ghost use Rattle.tracker_session.specs.Batches.{frame_in, next_slots};
ghost use Rattle.tracker_session.specs.Hearing.{Hears, HearsAnswer, HearsCount, HearsSome};
ghost use Rattle.tracker_session.specs.Keeping.{LeavesLosses, LeavesRing, kept_as};
ghost use Rattle.tracker_session.specs.RoundStates.{round_by};
ghost use Rattle.tracker_session.specs.WholeRounds.{IsWholeRound, TalksWhere};
ghost use Rattle.tracker_session.specs.Turns.{BreaksWith};
ghost use Rattle.tracker_session.specs.Trackers.{IsSameDevice, IsTracker, dialed, silent};

use crate::answering::answer;
use crate::heard::{Got, Heard, Hearing};
use crate::kept::{KeepFault, Kept};
use crate::losses::Losses;
use crate::packing::write_batch;
use crate::round::connect;
use crate::round_end::RoundEnd;
use crate::shell::Shell;
use crate::storing::store;
use arrayvec::ArrayVec;
use avl_values::{Imei, MediumFault, Order, Rec};
use flash_ring::{ReopenFault, Ring};
use frame_channel::{Down, DownItem, Link, write_login};
use medium_model::{Bench, Medium, Tear};
use std::marker::Model;

/// The record bytes of a data body of 1,268 bytes, without its codec id and its two numbers of records.
const ROOM: u16 = 1265;

const SEQ_END: u64 = 1 << 63;

/// A device's end of its connections: it keeps records in a ring, sends them in batches, and closes a batch's slots once that
/// batch's own count was heard (this project's own; logins, frames and counts are those of Teltonika, Data Sending Protocols).
///
/// A talk begins with `dial_in`, and has one batch outstanding at a time.
#[derive(Drop)]
pub struct Tracker<M: Medium> {
    imei: Imei,
    ring: Ring<M>,
    order: Order,
    talking: bool,
    reader: Down,
    batch: ArrayVec<u16, 255>,
}

impl<M: Medium> Model for Tracker<M> {
    ghost use Rattle.std.specs.Prelude.{◌≡◌, true, false};
    ghost use Rattle.tracker_session.specs.RoundStates.{round_by};
    ghost use Rattle.tracker_session.specs.WholeRounds.{IsWholeRound, TalksWhere};
    ghost use Rattle.tracker_session.specs.Trackers.{IsTracker, TrackerView};

    ghost Value = { TrackerView };

    ghost view = { λ t. record { imei = t.imei; ring = t.ring; order = t.order; talking = t.talking; answered = t.reader.after_first; batch = t.batch.items; have = t.reader.have } };

    ghost invariant = { λ t. IsTracker (record { imei = t.imei; ring = t.ring; order = t.order; talking = t.talking; answered = t.reader.after_first; batch = t.batch.items; have = t.reader.have }) × (t.talking ≡ true → t.reader.failed ≡ false) };
}

impl<M: Medium> Tracker<M> {
    /// A tracker over a ring, which may be down. No talk goes on.
    pub fn new(imei: Imei, ring: Ring<M>, order: Order) -> Tracker<M>
        ensures { result ≡ record { imei = imei; ring = ring; order = order; talking = false; answered = false; batch = []; have = [] } }
    {
        Tracker {
            imei,
            ring,
            order,
            talking: false,
            reader: Down::new(),
            batch: ArrayVec::new(),
        }
    }

    /// The ring.
    pub fn ring(&self) -> &Ring<M>
        ensures { result.now ≡ self.now.ring }
    {
        &self.ring
    }

    /// The ring, also one that is down.
    pub fn into_ring(self) -> Ring<M>
        ensures { result ≡ self.ring }
    {
        let Tracker { ring, .. } = self;
        ring
    }

    /// The device's IMEI.
    pub fn imei(&self) -> Imei
        ensures { result ≡ self.now.imei }
    {
        self.imei
    }

    /// Whether a medium fault took the ring down: then `reopen` it, or take it.
    pub fn is_down(&self) -> bool
        ensures value { result ≡ self.now.ring.down }
        ensures durable { self.now.ring.down ≡ false → IsDurable self.now.ring }
    {
        self.ring.is_down()
    }

    /// Whether a talk goes on: from `dial_in` to the first answer that ends it.
    pub fn talking(&self) -> bool
        ensures value { result ≡ self.now.talking }
        ensures up { self.now.talking ≡ true → self.now.ring.down ≡ false }
    {
        self.talking
    }

    // No talk goes on, and nothing is outstanding.
    pub(crate) fn fall_silent(&mut self)
        ensures { self.new ≡ silent self.old }
    {
        self.talking = false;
        self.batch.clear();
        self.reader.begin_login();
    }

    /// Opens the ring again, whether it is down or not, and ends the talk. It takes no memory. After an Err the ring is down.
    pub fn reopen(&mut self) -> Result<(), ReopenFault>
        ensures silent { self.new ≡ silent (record self.old { ring = self.new.ring }) }
        ensures size { length self.new.ring.slots ≡ length self.old.ring.slots }
        ensures durable { OnOk result (IsDurable self.new.ring) }
        ensures holds { OnOk result (IfTold self.old.ring.medium.content (λ c. self.new.ring.slots ≡ slots_of (length self.old.ring.slots) c.reads)) }
        ensures next { OnOk result (self.new.ring.next ≡ next_of self.new.ring.slots) }
        ensures down { OnErr result (self.new.ring.down ≡ true) }

        // It writes nothing: what is read stays. What was found there is sound, or is why it is refused.
        ensures synced { OnOk result (self.new.ring.medium.content ≡ told after_sync self.old.ring.medium.content) }
        ensures either { IsEither self.old.ring.medium.content (told after_sync self.old.ring.medium.content) self.new.ring.medium.content }
        ensures flash { OnOk result (IfTold self.old.ring.medium.content (λ c. IsFlash (length self.old.ring.slots) c.reads)) }
        ensures refused { IfErr result (λ e. IfTold self.old.ring.medium.content (λ c. Refuses (length self.old.ring.slots) c.reads e)) }

        // It adds no image, also where it fails.
        ensures images { EveryImage self.new.ring.medium.content (WasImage self.old.ring.medium.content) }

        ensures first_call { Fails 1 self.old.ring.medium.left → IsErrOf result ReopenFault.MediumFault }
        ensures counted { CountedSome self.old.ring.medium self.new.ring.medium (IsErrOf result ReopenFault.MediumFault) }
    {
        self.fall_silent();
        self.ring.reopen()
    }

    /// Keeps a record. Where the ring is full, its oldest record is listed as lost first, and then given up. Whatever it returns,
    /// it ends the talk.
    pub fn keep<L: Losses>(&mut self, rec: &Rec, losses: &mut L) -> Result<Kept, KeepFault>
        requires up { self.old.ring.down ≡ false }
        requires is_record { IsSomeRecord rec.now.codec rec.now.bytes.items }

        ensures silent { self.new ≡ silent (record self.old { ring = self.new.ring }) }
        ensures ring { LeavesRing (record_of rec.now) result self.old.ring self.new.ring }
        ensures losses { LeavesLosses result self.old.ring (L.state losses.old) (L.state losses.new) }
        ensures kept { IfOk result (λ kept. kept ≡ kept_as (is_full self.old.ring.slots)) }
        ensures spent { IsErrOf result KeepFault.SeqSpent ↔ (self.old.ring.next ≡ 2 ^ 63) }
    {
        self.fall_silent();
        if self.ring.next_seq() == SEQ_END {
            return Err(KeepFault::SeqSpent);
        }
        let full = match self.ring.oldest_if_full() {
            Some(oldest) => {
                if losses.list(oldest).is_err() {
                    return Err(KeepFault::ListFault);
                }
                true
            }
            None => false,
        };
        match store(&mut self.ring, rec) {
            Ok(()) => Ok(if full { Kept::StoredOver } else { Kept::Stored }),
            Err(MediumFault) => Err(KeepFault::MediumFault),
        }
    }

    /// The login, which begins a new talk. Nothing is outstanding.
    pub fn dial_in(&mut self) -> [u8; 17]
        requires { self.old.ring.down ≡ false }
        ensures login { IsLogin self.old.imei result }
        ensures dialed { self.new ≡ dialed self.old }
    {
        self.batch.clear();
        self.reader.begin_login();
        self.talking = true;
        write_login(self.imei)
    }

    /// Writes the frame of the next batch over what was in `out`, and says how many records it has: 0, with `out` empty, exactly
    /// where no slot is open. The batch is outstanding then.
    pub fn next_batch(&mut self, out: &mut ArrayVec<u8, 1280>) -> u8
        requires talking { self.old.talking ≡ true }
        requires accepted { self.old.answered ≡ true }
        requires none { self.old.batch ≡ [] }
        ensures count { result ≡ length (next_slots self.old.order self.old.ring.slots) }
        ensures frame { out.new.items ≡ frame_in self.old.ring.slots (next_slots self.old.order self.old.ring.slots) }
        ensures batch { self.new ≡ record self.old { batch = next_slots self.old.order self.old.ring.slots } }
        ensures nothing { result ≡ 0 ↔ (held_of self.old.ring.slots ≡ []) }
    {
        self.batch = self.ring.select(self.order, ROOM);
        write_batch(&self.ring, &self.batch, out);
        self.batch.len() as u8
    }

    /// Hears at most one item of the stream down, and says how many bytes of the piece it took: on the batch's own count its slots
    /// are closed, and a command is handed to the shell. `out` holds the frame of a command's answer then, and is empty otherwise.
    pub fn hear<S: Shell>(
        &mut self,
        piece: &[u8],
        shell: &mut S,
        out: &mut ArrayVec<u8, 1280>,
    ) -> (usize, Heard)
        requires { self.old.talking ≡ true }
        ensures { Hears (record { says = S.says; obeyed = S.obeyed }) self.old self.new piece.now result.0 result.1 shell.old shell.new out.new.items }
    {
        let (n, hearing) = self.hear_some(piece, shell, out, true);
        match hearing {
            Hearing::Done(heard) => (n, heard),
            Hearing::Unobeyed => unreachable!(),
        }
    }

    // What is true of it.
    pub(crate) fn look(&self)
        ensures known { IsTracker self.now }
        ensures durable { self.now.talking ≡ true → IsDurable self.now.ring }
    {
        let _durable = self.ring.is_down();
    }

    // `hear`, where a command may be one that isn't to be obeyed.
    pub(crate) fn hear_some<S: Shell>(
        &mut self,
        piece: &[u8],
        shell: &mut S,
        out: &mut ArrayVec<u8, 1280>,
        obeys: bool,
    ) -> (usize, Hearing)
        requires { self.old.talking ≡ true }
        ensures hears { HearsSome (record { says = S.says; obeyed = S.obeyed }) obeys self.old self.new piece.now result.0 result.1 shell.old shell.new out.new.items }
        ensures same { IsSameDevice self.old self.new }
    {
        out.clear();
        let (n, item) = self.reader.push(piece);
        match item {
            DownItem::More => (n, Hearing::Done(Heard::More)),
            DownItem::Login(byte) => (n, Hearing::Done(self.hear_answer(byte))),
            DownItem::Count(count) => (n, Hearing::Done(self.hear_count(count))),
            DownItem::Order => {
                if !obeys {
                    self.fall_silent();
                    return (n, Hearing::Unobeyed);
                }
                answer(self.imei, self.reader.body(), shell, out);
                (n, Hearing::Done(Heard::Answer))
            }
            DownItem::Broken(found) => {
                self.talking = false;
                self.fall_silent();
                (n, Hearing::Done(Heard::Wrong(Got::Frame(found))))
            }
        }
    }

    // The login's answer was heard.
    fn hear_answer(&mut self, byte: u8) -> Heard
        ensures hears { HearsAnswer result byte self.old self.new }
        ensures same { IsSameDevice self.old self.new }
    {
        match byte {
            0 => {
                self.fall_silent();
                Heard::Refused
            }
            1 => Heard::Accepted,
            _ => {
                self.fall_silent();
                Heard::Wrong(Got::Login(byte))
            }
        }
    }

    // A count was heard.
    fn hear_count(&mut self, count: u32) -> Heard
        requires talking { self.old.talking ≡ true }
        ensures hears { HearsCount result count self.old self.new }
        ensures same { IsSameDevice self.old self.new }
    {
        if self.batch.is_empty() || count != self.batch.len() as u32 {
            self.fall_silent();
            return Heard::Wrong(Got::Count(count));
        }
        match self.ring.release(&self.batch) {
            Ok(()) => {
                self.batch.clear();
                Heard::Released(count as u8)
            }
            Err(MediumFault) => {
                self.talking = false;
                self.fall_silent();
                Heard::MediumFault
            }
        }
    }

    /// One connection with at most `most` batches: it logs in, sends batches one after the other, each after the count of the one
    /// before, and answers commands. What follows from an item is done before the next one is looked at, and what came in one piece
    /// with the item at which it ends isn't looked at. Whatever it returns, no talk goes on.
    pub fn round<L: Link, S: Shell>(
        &mut self,
        link: &mut L,
        shell: &mut S,
        most: u32,
    ) -> Result<RoundEnd, MediumFault>
        requires up { self.old.ring.down ≡ false }
        requires some { 0 < most }
        ensures silent { self.new ≡ silent (record self.old { ring = self.new.ring }) }
        ensures round { IsWholeRound (record { says = S.says; obeyed = S.obeyed }) (round_by self.old most shell.old) (Rose (L.state link.old).faults (L.state link.new).faults) self.old.ring self.new.ring shell.new (L.state link.old).told (L.state link.new).told result }

        // Over a link that tells its bytes, and whose count of faults didn't rise, the batches are told by their bodies, where no
        // command was heard.
        ensures talks { (Rose (L.state link.old).faults (L.state link.new).faults → ⊥) → (result ≡ Ok RoundEnd.Empty → ⊥) → TalksWhere self.old.imei most result self.old.ring self.new.ring (L.state link.old).told (L.state link.new).told }

        ensures empty { result ≡ Ok RoundEnd.Empty ↔ (held_of self.old.ring.slots ≡ []) }
        ensures nothing { result ≡ Ok RoundEnd.Empty → (link.new ≡ link.old) × (shell.new ≡ shell.old) × (self.new.ring ≡ self.old.ring) }
        ensures drained { (n : ℕ) → result ≡ Ok (RoundEnd.Done n) → (most ≤ n) ⊎ (held_of self.new.ring.slots ≡ []) }
        ensures broken { BreaksWith result (L.state link.old) (L.state link.new) }
        ensures follows { L.follows link.old link.new }
    {
        let _durable = self.is_down();
        connect(self, link, shell, most)
    }

    /// Arms the ring's bench.
    pub fn arm(&mut self, calls: u64, tear: Tear)
    where
        M: Bench,
        requires { self.old.ring.medium.left ≡ unlimited }
        ensures armed { self.new ≡ record self.old { ring = record self.old.ring { medium = record self.old.ring.medium { left = after calls } } } }
        ensures told { IsSome self.old.ring.medium.content }
    {
        self.ring.arm(calls, tear);
    }

    /// The power comes back: the ring's bench reads as one of the images that the power loss might have left, the ring is opened
    /// again, and no talk goes on. It takes no memory.
    pub fn restart(&mut self) -> Result<(), ReopenFault>
    where
        M: Bench,
        ensures silent { self.new ≡ silent (record self.old { ring = self.new.ring }) }
        ensures size { length self.new.ring.slots ≡ length self.old.ring.slots }
        ensures held { OnOk result (MayHold self.old.ring self.new.ring.slots) }
        ensures durable { OnOk result (IsDurable self.new.ring) }
        ensures next { OnOk result (self.new.ring.next ≡ next_of self.new.ring.slots) }
        ensures down { OnErr result (self.new.ring.down ≡ true) }
        ensures fits { EverySound self.old.ring → IsOk result }
        ensures restarted { IsRestarted self.old.ring.medium.content self.new.ring.medium.content }
        ensures told { IsSome self.old.ring.medium.content }
        ensures refused { IfErr result (λ e. IfTold self.new.ring.medium.content (λ c. Refuses (length self.old.ring.slots) c.reads e)) }
        ensures never_fails { IsErrOf result ReopenFault.MediumFault → ⊥ }
        ensures ready { self.old.ring.medium.ready ≤ self.new.ring.medium.ready }
        ensures faults { self.old.ring.medium.faults ≤ self.new.ring.medium.faults }
        ensures unlimited { self.new.ring.medium.left ≡ unlimited }
    {
        self.fall_silent();
        self.ring.restart()
    }
}
