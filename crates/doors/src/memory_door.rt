ghost use Rattle.std.specs.Prelude.{◌≡◌, ◌↔◌, ◌<◌, ◌≤◌, ◌-◌, ◌^◌, ◌∷◌, IfOk, OnErr, IsErr, All};
ghost use Rattle.avl_values.specs.Causes.{HasCause, more_by_one};
ghost use Rattle.links.specs.Memory.{link_state};
ghost use Rattle.doors.specs.Doors.{Gives, GivesNone, IsUnused, TakesBack};
ghost use Rattle.doors.specs.MemoryDoors.{FailsNext, IsUnusedLink, after_accept, after_done, after_failure, door_state, unopened};

use crate::door::Door;
use avl_values::{Failed, NoMemory};
use fault_plan::FaultPlan;
use links::{Link, MemoryLink};
use std::alloc::Global;
use std::collections::VecDeque;
use std::marker::Model;

/// A door in memory. It gives its links in order, fails at chosen accepts and where no link is left, and keeps the links that come
/// back.
#[derive(Drop)]
pub struct MemoryDoor {
    coming: VecDeque<MemoryLink>,
    ended: Vec<MemoryLink>,
    out: usize,
    plan: FaultPlan,
    faults: u64,
    link_faults: u64,
}

impl Model for MemoryDoor {
    ghost use Rattle.std.specs.Prelude.{◌+◌, ◌≤◌, All, vec_len};
    ghost use Rattle.std.specs.Vec.{vec_capacity};
    ghost use Rattle.std.specs.VecDeque.{deque_len};
    ghost use Rattle.doors.specs.MemoryDoors.{IsUnusedLink, MemoryDoorState};

    ghost Value = { MemoryDoorState };

    ghost view = { λ d. record {
      gives = d.coming.items;
      back = d.ended.items;
      out = d.out;
      plan = d.plan;
      faults = d.faults;
      link_faults = d.link_faults;
    } };

    ghost invariant = { λ d. All IsUnusedLink d.coming.items × (vec_len d.ended + d.out + deque_len d.coming ≤ vec_capacity d.ended) };
}

impl MemoryDoor {
    /// A door that gives these links, which were not used yet, in order. It takes the memory for those that come back at once.
    /// Accepts are numbered from 0. One fails, and counts, exactly where its number is in `failing`, and where no link is
    /// left.
    pub fn new(
        alloc: Global,
        mut links: Vec<MemoryLink>,
        failing: &[u64],
    ) -> Result<MemoryDoor, NoMemory>
        requires unused { All IsUnusedLink links.items }
        ensures { IfOk result (λ door. door ≡ unopened links.items failing.now) }
    {
        let ended = Vec::with_capacity(alloc, links.len())?;
        let mut coming = VecDeque::new(alloc);
        while let Some(link) = links.pop() {
            coming.push_front(link)?;
        }
        Ok(MemoryDoor {
            coming,
            ended,
            out: 0,
            plan: FaultPlan::new(alloc, failing)?,
            faults: 0,
            link_faults: 0,
        })
    }

    /// The links that came back, in order.
    pub fn ended(&self) -> &[MemoryLink]
        ensures { result.now ≡ self.now.back }
    {
        self.ended.as_slice()
    }

    /// Counts a failed accept.
    fn fail(&mut self) -> Failed
        ensures counted { self.new ≡ record self.old { faults = more_by_one self.old.faults } }
        ensures later { self.old.faults ≤ more_by_one self.old.faults }
    {
        self.faults = self.faults.saturating_add(1);
        Failed
    }
}

impl Door for MemoryDoor {
    type L = MemoryLink;

    ghost state = { door_state };

    fn faults(&self) -> u64 {
        self.faults
    }

    fn link_faults(&self) -> u64 {
        self.link_faults
    }

    fn accept(&mut self) -> Result<MemoryLink, Failed>
        ensures gives { IfOk result (λ link. Gives (door_state self.old) link (door_state self.new)) }
        ensures out { IfOk result (λ _. 0 < self.new.out) }
        ensures unused { IfOk result (λ link. IsUnused (link_state link)) }
        ensures failed { OnErr result (GivesNone (door_state self.old) (door_state self.new)) }
        ensures cause { HasCause self.old.faults self.new.faults result }

        // it fails exactly at the chosen accepts, and where no link is left
        ensures fails { IsErr result ↔ FailsNext self.old }
        ensures first { IfOk result (λ link. self.old.gives ≡ link ∷ self.new.gives) }
        ensures after { IfOk result (λ _. self.new ≡ after_accept self.new.gives self.old) }
        ensures after_failure { OnErr result (self.new ≡ after_failure self.old) }
    {
        if self.plan.next_fails() {
            return Err(self.fail());
        }
        match self.coming.pop_front() {
            Some(link) => {
                self.out += 1;
                Ok(link)
            }
            None => Err(self.fail()),
        }
    }

    fn done(&mut self, link: MemoryLink)
        requires out { 0 < self.old.out }
        requires count { self.old.link_faults < 2 ^ 64 - 1 }
        ensures back { TakesBack (door_state self.old) link link.faults (door_state self.new) }
        ensures after { self.new ≡ after_done link self.old }
    {
        if link.faults() != 0 {
            self.link_faults += 1;
        }
        self.out -= 1;
        self.ended.push_reserved(link);
    }
}
