//! The records that are held, as a list.
ghost use Rattle.std.specs.Prelude.{◌≡◌, Some, IfOk};
ghost use Rattle.avl_values.specs.Viewed.{record_of};
ghost use Rattle.flash_ring.specs.Entries.{held_of};
ghost use Rattle.flash_ring.specs.Held.{IsOpen, rec_at};
ghost use Rattle.flash_ring.specs.Queue.{queue_of};

use crate::held::Held;
use crate::rank::Found;
use avl_values::{NoMemory, Rec, RecList};
use std::alloc::Global;
use std::collections::VecDeque;

// The record of an open slot.
fn copy_at(slots: &[Option<Held>], slot: u16) -> Rec
    requires { IsOpen slot slots.now }
    ensures { rec_at slots.now slot ≡ Some (record_of result) }
{
    match &slots[slot as usize] {
        Some(held) => held.rec.copy(),
        None => unreachable!(),
    }
}

/// The records of the slots in a queue, in its order.
pub fn list(
    alloc: Global,
    slots: &[Option<Held>],
    queue: &VecDeque<Found>,
) -> Result<RecList, NoMemory>
    requires { queue.now.items ≡ queue_of slots.now }
    ensures { IfOk result (λ records. records ≡ held_of slots.now) }
{
    let mut records = RecList::new(alloc);
    for at in 0..queue.len() {
        records.push(copy_at(slots, queue[at].slot))?;
    }
    Ok(records)
}
