ghost use Rattle.std.specs.Prelude.{◌≡◌, ◌+◌, ◌*◌, ◌<◌, ◌≤◌, [], ◌∷◌, length, set, slice_get, Some, None, OnOk, IsErr};
ghost use Rattle.medium_model.specs.State.{Counted, IfTold};
ghost use Rattle.medium_model.specs.PowerLoss.{EveryImage};
ghost use Rattle.flash_ring.specs.Held.{IsSoundHeld};
ghost use Rattle.flash_ring.specs.Images.{HoldsWith, IsSettled, OthersStay};
ghost use Rattle.medium_model.specs.Images.{IsEither};

use crate::held::{Held, SLOT_BYTES};
use avl_values::Failed;
use medium_model::{Medium, OPEN};

/// Stores a record in a closed slot: its body is durable before its gate is opened.
pub fn store<M: Medium>(
    medium: &mut M,
    slots: &[Option<Held>],
    slot: u16,
    held: &Held,
) -> Result<(), Failed>
    requires ready { 272 * slot + 272 ≤ (M.state medium.old).ready }
    requires settled { IfTold (M.state medium.old).content (IsSettled (length slots.now) slots.now) }
    requires closed { slice_get slots.now slot ≡ Some None }
    requires sound { IsSoundHeld held.now }

    ensures images { EveryImage (M.state medium.new).content (HoldsWith (length slots.now) (IsEither slots.now (set slots.now slot (Some held.now)))) }
    ensures settled { OnOk result (IfTold (M.state medium.new).content (IsSettled (length slots.now) (set slots.now slot (Some held.now)))) }
    ensures others { OnOk result (OthersStay (slot ∷ []) (M.state medium.old).content (M.state medium.new).content) }
    ensures counted { Counted 4 (M.state medium.old) (M.state medium.new) (IsErr result) }
{
    let gate = SLOT_BYTES as u64 * slot as u64;
    let body = held.body();
    medium.write(gate + 1, body.as_slice())?;
    medium.sync()?;
    medium.write(gate, &[OPEN])?;
    medium.sync()?;
    Ok(())
}
