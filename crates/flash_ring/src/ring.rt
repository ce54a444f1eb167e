ghost use Rattle.std.specs.Prelude.{◌≡◌, ◌≢◌, ◌⊎◌, ◌↔◌, ◌+◌, ◌*◌, ◌<◌, ◌≤◌, ◌^◌, true, false, ℕ, [], ◌∷◌, drop, length, replicate, set, slice_get, take, Some, None, IfNone, IfSome, IfOk, IfErr, OnOk, OnErr, IsOk, IsErr, IsErrOf, IsSome};
ghost use Rattle.avl_values.specs.Viewed.{record_of};
ghost use Rattle.std.specs.VecDeque.{deque_capacity};
ghost use Rattle.medium_model.specs.CallsLeft.{Fails, after, unlimited};
ghost use Rattle.medium_model.specs.Content.{after_sync, settled};
ghost use Rattle.medium_model.specs.State.{Counted, CountedSome, IfTold, IsRestarted, IsRun, told};
ghost use Rattle.medium_model.specs.PowerLoss.{EveryImage, WasImage};
ghost use Rattle.record_codecs.specs.SomeRecord.{IsSomeRecord};
ghost use Rattle.flash_ring.specs.Entries.{IsOldest, entries_of, first_slot, held_of, selected, with_room};
ghost use Rattle.flash_ring.specs.Held.{closed_all, first_closed, is_full, next_of, put_in, rec_at};
ghost use Rattle.flash_ring.specs.Images.{AreDistinct, AreOpen, MayClose, OthersStay, reached};
ghost use Rattle.flash_ring.specs.Queue.{queue_of};
ghost use Rattle.flash_ring.specs.Refusal.{Refuses, RefusesOpen};
ghost use Rattle.flash_ring.specs.Ring.{EachHolds, EverySound, IsDurable, MayHold, put_calls, room_calls};
ghost use Rattle.medium_model.specs.Images.{IsEither};
ghost use Rattle.flash_ring.specs.Slot.{IsFlash, slots_of};

use crate::Order;
use crate::close::close_slots;
use crate::format::format;
use crate::held::Held;
use crate::listing::list;
use crate::load::{OpenFault, ReopenFault, load_all, load_anew};
use crate::queue::{fill, push, take_out};
use crate::rank::{Found, select};
use crate::store::store;
use arrayvec::ArrayVec;
use avl_values::{Failed, MediumFault, NoMemory, Rec, RecList};
use medium_model::{Bench, Medium, Tear};
use std::alloc::Global;
use std::collections::VecDeque;
use std::marker::Model;

const SEQ_END: u64 = 1 << 63;

/// Why a record isn't stored.
#[derive(Clone, Copy, Debug, PartialEq, Eq)]
pub enum PutFault {
    /// The medium failed in this call. The ring is down.
    MediumFault,
    /// The next sequence is 2^63. Nothing has changed.
    SeqSpent,
}

/// A ring of 1 to 4,096 slots on a medium, each for one record (this project's own).
///
/// A record that was stored with Ok stays in every image that a power loss may leave, until its slot is closed. After a call
/// that returned MediumFault the ring is down: `reopen` it, or take the medium.
#[derive(Drop)]
pub struct Ring<M: Medium> {
    medium: M,
    slots: Vec<Option<Held>>,
    // The open slots in order.
    queue: VecDeque<Found>,
    // Each slot before this one is open.
    opened: usize,
    next: u64,
    down: bool,
}

impl<M: Medium> Model for Ring<M> {
    ghost use Rattle.std.specs.VecDeque.{deque_capacity};
    ghost use Rattle.flash_ring.specs.Queue.{HasQueue};
    ghost use Rattle.flash_ring.specs.Ring.{RingView, IsRing};

    ghost Value = { RingView };

    ghost view = { λ r. record { medium = M.state r.medium; slots = r.slots.items; next = r.next; down = r.down } };

    // The queue has room for each slot, and while the ring is up it has the open ones.
    ghost invariant = { λ r. IsRing (record { medium = M.state r.medium; slots = r.slots.items; next = r.next; down = r.down }) × HasQueue r.slots.items r.queue.items (deque_capacity r.queue) r.opened r.down };
}

// The closed slot with the lowest number, where there is one. Each slot before `opened` is open.
#[tactic(auto, using(crate::proofs::Rings::first_here, crate::proofs::Rings::full_more, crate::proofs::Rings::not_full))]
fn find_closed(slots: &[Option<Held>], opened: usize) -> Option<u16>
    requires few { length slots.now ≤ 4096 }
    requires opened { is_full (take opened slots.now) ≡ true }
    ensures full { IfNone result (is_full slots.now ≡ true) }
    ensures room { IfSome result (λ k. is_full slots.now ≡ false) }
    ensures first { IfSome result (λ k. k ≡ first_closed slots.now) }
{
    for slot in opened..slots.len() {
        if slots[slot].is_none() {
            return Some(slot as u16);
        }
    }
    None
}

// The slot of the oldest record, where every slot is open.
#[tactic(auto, using(crate::proofs::Rings::is_oldest, crate::proofs::Queues::queue_full, crate::proofs::Queues::queue_room))]
fn oldest(slots: &[Option<Held>], queue: &VecDeque<Found>) -> Option<u16>
    requires some { 0 < length slots.now }
    requires queue { queue.now.items ≡ queue_of slots.now }
    ensures room { IfNone result (is_full slots.now ≡ false) }
    ensures full { IfSome result (λ k. is_full slots.now ≡ true) }
    ensures oldest { IfSome result (IsOldest slots.now) }
{
    if queue.len() < slots.len() {
        return None;
    }
    Some(queue[0].slot)
}

fn lesser(a: usize, b: usize) -> usize
    ensures first { result ≤ a }
    ensures second { result ≤ b }
{
    if a < b { a } else { b }
}

// Closes these slots. `opened` falls to the first of them, where that is less.
fn close_all(
    held: &mut Vec<Option<Held>>,
    queue: &mut VecDeque<Found>,
    opened: &mut usize,
    slots: &[u16],
)
    requires opens { AreOpen slots.now held.old.items }
    requires queue { queue.old.items ≡ queue_of held.old.items }
    requires opened { is_full (take opened.old held.old.items) ≡ true }
    ensures closed { held.new.items ≡ closed_all slots.now held.old.items }
    ensures queue { queue.new.items ≡ queue_of held.new.items }
    ensures capacity { deque_capacity queue.new ≡ deque_capacity queue.old }
    ensures opened { is_full (take opened.new held.new.items) ≡ true }
{
    for slot in slots {
        held[*slot as usize] = None;
        take_out(queue, *slot);
        *opened = lesser(*opened, *slot as usize);
    }
}

#[tactic(auto, using(crate::proofs::Rings::next_of_more, crate::proofs::Rings::seq_below))]
fn next_after(slots: &[Option<Held>]) -> u64
    requires { next_of slots.now ≤ 2 ^ 63 }
    ensures { result ≡ next_of slots.now }
{
    let mut next = 0;
    for slot in (0..slots.len()).rev() {
        if let Some(held) = &slots[slot] {
            next = (held.seq + 1).max(next);
        }
    }
    next
}

impl<M: Medium> Ring<M> {
    /// Writes `slots` closed slots onto an empty medium, and syncs. After a fault, or a power loss inside it, the medium has to
    /// be emptied and formatted again.
    pub fn format(medium: &mut M, slots: u16) -> Result<(), MediumFault>
        requires some { 1 ≤ slots }
        requires few { slots ≤ 4096 }
        requires empty { IfTold (M.state medium.old).content (λ c. c.reads ≡ []) }
        requires ready { 272 * slots ≤ (M.state medium.old).ready }
        ensures zeros { OnOk result (IfTold (M.state medium.new).content (λ c. c ≡ settled (replicate (272 * slots) 0))) }
        ensures images { OnOk result (EveryImage (M.state medium.new).content (λ image. image ≡ replicate (272 * slots) 0)) }
        ensures counted { Counted (slots + 1) (M.state medium.old) (M.state medium.new) (IsErr result) }
    {
        match format(medium, slots) {
            Ok(()) => Ok(()),
            Err(Failed) => Err(MediumFault),
        }
    }

    /// Opens a medium that a power loss may have left: it makes it ready, syncs, asks the length and reads every slot.
    pub fn open(alloc: Global, medium: M, slots: u16) -> Result<Ring<M>, (OpenFault, M)>
        requires some { 1 ≤ slots }
        requires few { slots ≤ 4096 }

        ensures size { IfOk result (λ r. length r.slots ≡ slots) }
        ensures durable { IfOk result IsDurable }
        ensures holds { IfOk result (λ r. IfTold (M.state medium).content (λ c. r.slots ≡ slots_of slots c.reads)) }
        ensures next { IfOk result (λ r. r.next ≡ next_of r.slots) }

        // It writes nothing: what is read stays. What was found there is sound, or is why it is refused.
        ensures synced { IfOk result (λ r. r.medium.content ≡ told after_sync (M.state medium).content) }
        ensures either_err { IfErr result (λ e. IsEither (M.state medium).content (told after_sync (M.state medium).content) (M.state e.1).content) }
        ensures flash { OnOk result (IfTold (M.state medium).content (λ c. IsFlash slots c.reads)) }
        ensures refused { IfErr result (λ e. IfTold (M.state medium).content (λ c. RefusesOpen slots c.reads e.0)) }

        // It adds no image, also where it fails.
        ensures images { IfOk result (λ r. EveryImage r.medium.content (WasImage (M.state medium).content)) }
        ensures images_err { IfErr result (λ e. EveryImage (M.state e.1).content (WasImage (M.state medium).content)) }

        ensures run { IfOk result (λ r. IsRun (M.state medium) r.medium ⊥) }
        ensures run_err { IfErr result (λ e. IsRun (M.state medium) (M.state e.1) (e.0 ≡ OpenFault.MediumFault)) }
    {
        let mut medium = medium;
        match load_anew(alloc, &mut medium, slots) {
            Ok((found, queue)) => {
                let next = next_after(&found);
                Ok(Ring {
                    medium,
                    slots: found,
                    queue,
                    opened: 0,
                    next,
                    down: false,
                })
            }
            Err(fault) => Err((fault, medium)),
        }
    }

    /// Opens it again, whether it is down or not. It takes no memory. After an Err the ring is down.
    pub fn reopen(&mut self) -> Result<(), ReopenFault>
        ensures size { length self.new.slots ≡ length self.old.slots }
        ensures durable { OnOk result (IsDurable self.new) }
        ensures holds { OnOk result (IfTold self.old.medium.content (λ c. self.new.slots ≡ slots_of (length self.old.slots) c.reads)) }
        ensures next { OnOk result (self.new.next ≡ next_of self.new.slots) }
        ensures down { OnErr result (self.new.down ≡ true) }

        // It writes nothing: what is read stays. What was found there is sound, or is why it is refused.
        ensures synced { OnOk result (self.new.medium.content ≡ told after_sync self.old.medium.content) }
        ensures either { IsEither self.old.medium.content (told after_sync self.old.medium.content) self.new.medium.content }
        ensures flash { OnOk result (IfTold self.old.medium.content (λ c. IsFlash (length self.old.slots) c.reads)) }
        ensures refused { IfErr result (λ e. IfTold self.old.medium.content (λ c. Refuses (length self.old.slots) c.reads e)) }

        // It adds no image, also where it fails.
        ensures images { EveryImage self.new.medium.content (WasImage self.old.medium.content) }

        ensures first_call { Fails 1 self.old.medium.left → IsErrOf result ReopenFault.MediumFault }
        ensures counted { CountedSome self.old.medium self.new.medium (IsErrOf result ReopenFault.MediumFault) }
    {
        self.down = true;
        load_all(&mut self.medium, &mut self.slots)?;
        fill(&mut self.queue, &self.slots);
        self.opened = 0;
        self.next = next_after(&self.slots);
        self.down = false;
        Ok(())
    }

    /// Whether a medium fault took it down.
    #[tactic(auto, using(crate::proofs::Rings::durable_up))]
    pub fn is_down(&self) -> bool
        ensures value { result ≡ self.now.down }
        ensures durable { self.now.down ≡ false → IsDurable self.now }
    {
        self.down
    }

    /// One more than the greatest sequence that was open when the ring was last opened, or was stored since, or 0.
    #[tactic(auto, using(crate::proofs::Rings::durable_up))]
    pub fn next_seq(&self) -> u64
        ensures value { result ≡ self.now.next }
        ensures most { result ≤ 2 ^ 63 }
        ensures durable { self.now.down ≡ false → IsDurable self.now }
    {
        self.next
    }

    /// The medium, also of a ring that is down.
    pub fn into_medium(self) -> M
        ensures { M.state result ≡ self.medium }
    {
        let Ring { medium, .. } = self;
        medium
    }

    /// Stores a record in the closed slot with the lowest number, by four calls of the medium.
    pub fn put(&mut self, rec: &Rec) -> Result<(), PutFault>
        requires up { self.old.down ≡ false }
        requires room { is_full self.old.slots ≡ false }
        requires is_record { IsSomeRecord rec.now.codec rec.now.bytes.items }

        ensures stored { OnOk result (self.new.slots ≡ put_in self.old.slots (record { seq = self.old.next; rec = record_of rec.now })) }
        ensures next { OnOk result (self.new.next ≡ self.old.next + 1) }
        ensures durable { OnOk result (IsDurable self.new) }
        ensures others { OnOk result (OthersStay (first_closed self.old.slots ∷ []) self.old.medium.content self.new.medium.content) }

        // At every exit, and so at each moment of the call, a power loss leaves the slots before or those after.
        ensures images { EachHolds self.new (IsEither self.old.slots (put_in self.old.slots (record { seq = self.old.next; rec = record_of rec.now }))) }

        ensures spent { IsErrOf result PutFault.SeqSpent ↔ (self.old.next ≡ 2 ^ 63) }
        ensures unchanged { IsErrOf result PutFault.SeqSpent → self.new ≡ self.old }
        ensures failed { IsErrOf result PutFault.MediumFault → self.new ≡ record self.old { medium = self.new.medium; down = true } }
        ensures counted { Counted (put_calls self.old) self.old.medium self.new.medium (IsErrOf result PutFault.MediumFault) }
    {
        if self.next == SEQ_END {
            return Err(PutFault::SeqSpent);
        }
        let Some(slot) = find_closed(&self.slots, self.opened) else {
            unreachable!()
        };
        let held = Held::new(self.next, rec);
        if store(&mut self.medium, &self.slots, slot, &held).is_err() {
            self.down = true;
            return Err(PutFault::MediumFault);
        }
        push(&mut self.queue, slot, &held);
        self.slots[slot as usize] = Some(held);
        self.opened = slot as usize + 1;
        self.next += 1;
        Ok(())
    }

    /// Closes these slots, each by a write of its gate, in the order given, and then one sync.
    pub fn release(&mut self, slots: &[u16]) -> Result<(), MediumFault>
        requires up { self.old.down ≡ false }
        requires opens { AreOpen slots.now self.old.slots }
        requires distinct { AreDistinct slots.now }
        requires some { 0 < length slots.now }

        ensures closed { OnOk result (self.new ≡ record self.old { medium = self.new.medium; slots = closed_all slots.now self.old.slots }) }
        ensures durable { OnOk result (IsDurable self.new) }
        ensures others { OnOk result (OthersStay slots.now self.old.medium.content self.new.medium.content) }

        // A power loss leaves the slots before, less any of those whose gates had been written.
        ensures images { EachHolds self.new (MayClose (reached self.old.medium.left slots.now) self.old.slots) }

        ensures failed { OnErr result (self.new ≡ record self.old { medium = self.new.medium; down = true }) }
        ensures counted { Counted (length slots.now + 1) self.old.medium self.new.medium (IsErr result) }
    {
        if close_slots(&mut self.medium, &self.slots, slots).is_err() {
            self.down = true;
            return Err(MediumFault);
        }
        close_all(&mut self.slots, &mut self.queue, &mut self.opened, slots);
        Ok(())
    }

    /// How many records are held.
    #[tactic(auto, using(crate::proofs::Rings::durable_up))]
    pub fn held(&self) -> u16
        requires { self.now.down ≡ false }
        ensures count { result ≡ length (held_of self.now.slots) }
        ensures durable { self.now.down ≡ false → IsDurable self.now }
    {
        self.queue.len() as u16
    }

    /// The records that are held, in order of sequence, equal sequences in order of slot. NoMemory changes nothing.
    #[tactic(auto, using(crate::proofs::Rings::durable_up))]
    pub fn records(&self, alloc: Global) -> Result<RecList, NoMemory>
        requires { self.now.down ≡ false }
        ensures held { IfOk result (λ records. records ≡ held_of self.now.slots) }
        ensures durable { self.now.down ≡ false → IsDurable self.now }
    {
        list(alloc, &self.slots, &self.queue)
    }

    /// The record with the least sequence, where every slot is open.
    #[tactic(auto, using(crate::proofs::Rings::durable_up, crate::proofs::Rings::oldest_low, crate::proofs::Rings::oldest_some, crate::proofs::Rings::oldest_first))]
    pub fn oldest_if_full(&self) -> Option<&Rec>
        requires { self.now.down ≡ false }
        ensures room { IfNone result (is_full self.now.slots ≡ false) }
        ensures full { IfSome result (λ rec. is_full self.now.slots ≡ true) }
        ensures oldest { IfSome result (λ rec. held_of self.now.slots ≡ record_of rec.now ∷ drop 1 (held_of self.now.slots)) }
        ensures durable { self.now.down ≡ false → IsDurable self.now }
    {
        let slot = oldest(&self.slots, &self.queue)?;
        match &self.slots[slot as usize] {
            Some(held) => Some(&held.rec),
            None => unreachable!(),
        }
    }

    /// Closes the slot of the oldest record where every slot is open, by one write and one sync. It makes no call of the
    /// medium otherwise.
    pub fn make_room(&mut self) -> Result<(), MediumFault>
        requires up { self.old.down ≡ false }

        ensures room { OnOk result (self.new ≡ record self.old { medium = self.new.medium; slots = with_room self.old.slots }) }
        ensures has_room { OnOk result (is_full self.new.slots ≡ false) }
        ensures durable { OnOk result (IsDurable self.new) }
        ensures others { OnOk result (OthersStay (first_slot (entries_of Order.Oldest self.old.slots) ∷ []) self.old.medium.content self.new.medium.content) }

        // At every exit, and so at each moment of the call, a power loss leaves the slots before or those after.
        ensures images { EachHolds self.new (IsEither self.old.slots (with_room self.old.slots)) }

        ensures failed { OnErr result (self.new ≡ record self.old { medium = self.new.medium; down = true }) }
        ensures counted { Counted (room_calls self.old) self.old.medium self.new.medium (IsErr result) }
    {
        // The proof takes from it that the ring is durable.
        let _durable = self.is_down();
        match oldest(&self.slots, &self.queue) {
            None => Ok(()),
            Some(slot) => self.release(&[slot]),
        }
    }

    /// The slots of the next batch: the longest prefix of the open slots, in this order of sequence and equal sequences in
    /// order of slot, that is of one codec and has at most 255 slots and `room` record bytes.
    #[tactic(auto, using(crate::proofs::Rings::durable_up))]
    pub fn select(&self, order: Order, room: u16) -> ArrayVec<u16, 255>
        requires { self.now.down ≡ false }
        ensures batch { result.items ≡ selected order room self.now.slots }
        ensures opens { AreOpen result.items self.now.slots }
        ensures distinct { AreDistinct result.items }
        ensures durable { self.now.down ≡ false → IsDurable self.now }
    {
        select(&self.slots, &self.queue, order, room)
    }

    /// The record of an open slot, None for a closed one and after the last.
    #[tactic(auto, using(crate::proofs::Rings::durable_up, crate::proofs::Rings::rec_at_read, crate::proofs::Rings::rec_at_past, crate::proofs::Rings::sound_at))]
    pub fn rec_at(&self, slot: u16) -> Option<&Rec>
        requires { self.now.down ≡ false }
        ensures open_slot { IfSome result (λ rec. rec_at self.now.slots slot ≡ Some (record_of rec.now)) }
        ensures closed { IfNone result (rec_at self.now.slots slot ≡ None) }
        ensures sound { IfSome result (λ rec. IsSomeRecord rec.now.codec rec.now.bytes.items) }
        ensures durable { self.now.down ≡ false → IsDurable self.now }
    {
        if slot as usize >= self.slots.len() {
            return None;
        }
        match &self.slots[slot as usize] {
            Some(held) => Some(&held.rec),
            None => None,
        }
    }

    /// Arms the ring's bench.
    pub fn arm(&mut self, calls: u64, tear: Tear)
    where
        M: Bench,
        requires { self.old.medium.left ≡ unlimited }
        ensures armed { self.new ≡ record self.old { medium = record self.old.medium { left = after calls } } }
        ensures told { IsSome self.old.medium.content }
    {
        self.medium.arm(calls, tear);
    }

    /// The power comes back: the bench reads as one of the images that the power loss might have left, all of it durable, and the
    /// ring is opened again. It takes no memory, and no call of the medium fails.
    pub fn restart(&mut self) -> Result<(), ReopenFault>
    where
        M: Bench,
        ensures size { length self.new.slots ≡ length self.old.slots }
        ensures held { OnOk result (MayHold self.old self.new.slots) }
        ensures durable { OnOk result (IsDurable self.new) }
        ensures next { OnOk result (self.new.next ≡ next_of self.new.slots) }
        ensures down { OnErr result (self.new.down ≡ true) }
        ensures fits { EverySound self.old → IsOk result }
        ensures restarted { IsRestarted self.old.medium.content self.new.medium.content }
        ensures told { IsSome self.old.medium.content }
        ensures refused { IfErr result (λ e. IfTold self.new.medium.content (λ c. Refuses (length self.old.slots) c.reads e)) }
        ensures never_fails { IsErrOf result ReopenFault.MediumFault → ⊥ }
        ensures ready { self.old.medium.ready ≤ self.new.medium.ready }
        ensures faults { self.old.medium.faults ≤ self.new.medium.faults }
        ensures unlimited { self.new.medium.left ≡ unlimited }
    {
        self.down = true;
        self.medium.restart();
        self.reopen()
    }
}
