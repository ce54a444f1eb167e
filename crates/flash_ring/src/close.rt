ghost use Rattle.std.specs.Prelude.{◌≡◌, ◌+◌, ◌*◌, ◌<◌, ◌≤◌, length, OnOk, IsErr};
ghost use Rattle.medium_model.specs.State.{Counted, IfTold};
ghost use Rattle.medium_model.specs.PowerLoss.{EveryImage};
ghost use Rattle.flash_ring.specs.Held.{closed_all};
ghost use Rattle.flash_ring.specs.Images.{AreOpen, HoldsWith, IsSettled, MayClose, OthersStay, reached};

use crate::held::{Held, SLOT_BYTES};
use avl_values::Failed;
use medium_model::{CLOSED, Medium};

/// Closes slots, each by a write of its gate, in the order given. They are durable together.
pub fn close_slots<M: Medium>(
    medium: &mut M,
    held: &[Option<Held>],
    slots: &[u16],
) -> Result<(), Failed>
    requires ready { 272 * length held.now ≤ (M.state medium.old).ready }
    requires settled { IfTold (M.state medium.old).content (IsSettled (length held.now) held.now) }
    requires opens { AreOpen slots.now held.now }

    ensures images { EveryImage (M.state medium.new).content (HoldsWith (length held.now) (MayClose (reached (M.state medium.old).left slots.now) held.now)) }
    ensures settled { OnOk result (IfTold (M.state medium.new).content (IsSettled (length held.now) (closed_all slots.now held.now))) }
    ensures others { OnOk result (OthersStay slots.now (M.state medium.old).content (M.state medium.new).content) }
    ensures counted { Counted (length slots.now + 1) (M.state medium.old) (M.state medium.new) (IsErr result) }
{
    for i in 0..slots.len() {
        medium.write(SLOT_BYTES as u64 * slots[i] as u64, &[CLOSED])?;
    }
    medium.sync()?;
    Ok(())
}
