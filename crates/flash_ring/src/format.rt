ghost use Rattle.std.specs.Prelude.{◌≡◌, ◌+◌, ◌*◌, ◌≤◌, [], length, replicate, OnOk, IsErr};
ghost use Rattle.medium_model.specs.Content.{settled};
ghost use Rattle.medium_model.specs.State.{Counted, IfTold};
ghost use Rattle.medium_model.specs.PowerLoss.{EveryImage};

use crate::held::SLOT_BYTES;
use avl_values::Failed;
use medium_model::Medium;

/// Writes `slots` closed slots onto an empty medium, and syncs.
pub fn format<M: Medium>(medium: &mut M, slots: u16) -> Result<(), Failed>
    requires few { slots ≤ 4096 }
    requires empty { IfTold (M.state medium.old).content (λ c. c.reads ≡ []) }
    requires ready { 272 * slots ≤ (M.state medium.old).ready }
    ensures zeros { OnOk result (IfTold (M.state medium.new).content (λ c. c ≡ settled (replicate (272 * slots) 0))) }
    ensures images { OnOk result (EveryImage (M.state medium.new).content (λ image. image ≡ replicate (272 * slots) 0)) }
    ensures counted { Counted (slots + 1) (M.state medium.old) (M.state medium.new) (IsErr result) }
{
    for slot in 0..slots {
        medium.write(SLOT_BYTES as u64 * slot as u64, &[0; SLOT_BYTES])?;
    }
    medium.sync()?;
    Ok(())
}
