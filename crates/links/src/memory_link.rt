ghost use Rattle.std.specs.Prelude.{◌≡◌, ◌↔◌, ◌⊎◌, ℕ, ◌+◌, ◌<◌, ◌≤◌, true, [], ◌++◌, min, length, take, drop, IfOk, OnErr, IsErr, IsTrue};
ghost use Rattle.avl_values.specs.Causes.{HasCause, more_by_one};
ghost use Rattle.fault_plan.specs.Plan.{after_call};
ghost use Rattle.links.specs.Going.{goes_on_later, goes_on_none, goes_on_then};
ghost use Rattle.links.specs.Links.{Moves, IsEmptyAtEnd};
ghost use Rattle.links.specs.Memory.{GoesOn, IsChosen, PassesRoom, after_failure, after_read, after_write, given, link_state, unused};

use crate::link::Link;
use avl_values::{Failed, NoMemory};
use fault_plan::FaultPlan;
use std::alloc::Global;
use std::marker::Model;

/// A link in memory. It gives its bytes in pieces, has room for a chosen number of bytes that are written, and fails at
/// chosen calls.
#[derive(Drop)]
pub struct MemoryLink {
    incoming: Vec<u8>,
    at: usize,
    written: Vec<u8>,
    piece: usize,
    room: usize,
    plan: FaultPlan,
    faults: u64,
}

impl Model for MemoryLink {
    ghost use Rattle.std.specs.Prelude.{◌≤◌, ◌<◌, drop, take, vec_len};
    ghost use Rattle.std.specs.Vec.{vec_capacity};
    ghost use Rattle.links.specs.Memory.{MemoryLinkState};

    ghost Value = { MemoryLinkState };

    ghost view = { λ l. record {
      taken = take l.at l.incoming.items;
      left = drop l.at l.incoming.items;
      written = l.written.items;
      piece = l.piece;
      room = l.room;
      plan = l.plan;
      faults = l.faults;
    } };

    ghost invariant = { λ l. (l.at ≤ vec_len l.incoming) × (0 < l.piece) × (vec_len l.written ≤ l.room) × (l.room ≤ vec_capacity l.written) };
}

/// Copies bytes from a place on into the slice, at most N, and says how many.
fn copy_piece(bytes: &[u8], at: usize, most: usize, into: &mut [u8]) -> usize
    requires { at ≤ length bytes.now }
    ensures count { result ≡ min (min most (length into.old)) (length (drop at bytes.now)) }
    ensures copied { into.new ≡ take result (drop at bytes.now) ++ drop result into.old }
{
    let count = most.min(into.len()).min(bytes.len() - at);
    into[..count].copy_from_slice(&bytes[at..at + count]);
    count
}

impl MemoryLink {
    /// A link that gives these bytes, at most `piece` at a read, and then is at its end. It has room for `room` bytes that are
    /// written, which it takes at once. Reads and writes are numbered together from 0. A call fails, and counts, exactly where
    /// its number is in `failing`, and a write also where its bytes would pass the room.
    pub fn new(
        alloc: Global,
        incoming: &[u8],
        piece: usize,
        room: usize,
        failing: &[u64],
    ) -> Result<MemoryLink, NoMemory>
        requires { 0 < piece }
        ensures { IfOk result (λ link. link ≡ unused incoming.now piece room failing.now) }
    {
        Ok(MemoryLink {
            incoming: Vec::from_slice(alloc, incoming)?,
            at: 0,
            written: Vec::with_capacity(alloc, room)?,
            piece,
            room,
            plan: FaultPlan::new(alloc, failing)?,
            faults: 0,
        })
    }

    /// The bytes that were written.
    pub fn written(&self) -> &[u8]
        ensures { result.now ≡ self.now.written }
    {
        self.written.as_slice()
    }

    /// Counts a call, and says whether it was chosen to fail.
    fn is_chosen(&mut self) -> bool
        ensures chosen { IsTrue result ↔ IsChosen self.old }
        ensures counted { self.new ≡ record self.old { plan = after_call self.old.plan } }
        ensures later { self.old.plan.calls ≤ more_by_one self.old.plan.calls }
    {
        self.plan.next_fails()
    }

    /// Counts a fault.
    fn fail(&mut self) -> Failed
        ensures counted { self.new ≡ record self.old { faults = more_by_one self.old.faults } }
        ensures later { self.old.faults ≤ more_by_one self.old.faults }
    {
        self.faults = self.faults.saturating_add(1);
        Failed
    }
}

impl Link for MemoryLink {
    ghost state = { link_state };

    ghost follows = { GoesOn };

    fn faults(&self) -> u64 {
        self.faults
    }

    fn read(&mut self, into: &mut [u8]) -> Result<usize, Failed>
        ensures bound { IfOk result (λ n. n ≤ length into.new) }
        ensures took { IfOk result (λ n. Moves (take n into.new) [] (link_state self.old).told (link_state self.new).told) }
        ensures end { 0 < length into.old → IfOk result (λ n. IsEmptyAtEnd (link_state self.old) n) }
        ensures stays_ended { (link_state self.old).ended ≡ true → (link_state self.new).ended ≡ true }
        ensures failed { OnErr result (Moves [] [] (link_state self.old).told (link_state self.new).told) }
        ensures cause { HasCause self.old.faults self.new.faults result }
        ensures follows { GoesOn self.old self.new }

        // it fails exactly at the chosen calls, and else gives a piece of what is left
        ensures fails { IsErr result ↔ IsChosen self.old }
        ensures gives { IfOk result (λ n. n ≡ given self.old (length into.old)) }
        ensures copied { IfOk result (λ n. into.new ≡ take n self.old.left ++ drop n into.old) }
        ensures after { IfOk result (λ n. self.new ≡ after_read n self.old) }
        ensures after_failure { OnErr result (self.new ≡ after_failure self.old) }
        ensures untouched { OnErr result (into.new ≡ into.old) }
    {
        if self.is_chosen() {
            return Err(self.fail());
        }
        let count = copy_piece(&self.incoming, self.at, self.piece, into);
        self.at += count;
        Ok(count)
    }

    fn write(&mut self, from: &[u8]) -> Result<usize, Failed>
        ensures bound { IfOk result (λ n. n ≤ length from.now) }
        ensures some { 0 < length from.now → IfOk result (λ n. 0 < n) }
        ensures wrote { IfOk result (λ n. Moves [] (take n from.now) (link_state self.old).told (link_state self.new).told) }
        ensures failed { OnErr result (Moves [] [] (link_state self.old).told (link_state self.new).told) }
        ensures cause { HasCause self.old.faults self.new.faults result }
        ensures follows { GoesOn self.old self.new }

        // it fails exactly at the chosen calls and where the bytes would pass the room, and else takes them all
        ensures fails { IsErr result ↔ (IsChosen self.old ⊎ PassesRoom self.old (length from.now)) }
        ensures takes { IfOk result (λ n. n ≡ length from.now) }
        ensures after { IfOk result (λ n. self.new ≡ after_write from.now self.old) }
        ensures after_failure { OnErr result (self.new ≡ after_failure self.old) }
    {
        if self.is_chosen() || from.len() > self.room - self.written.len() {
            return Err(self.fail());
        }
        self.written.extend_from_slice(from).unwrap();
        Ok(from.len())
    }

    ghost follows_none = { goes_on_none };

    ghost follows_then = { goes_on_then };

    ghost follows_later = { goes_on_later };
}
