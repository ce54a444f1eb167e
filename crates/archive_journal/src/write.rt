//! The calls that write: an append, an empty archive, and the closing of a last gate.
ghost use Rattle.std.specs.Prelude.{◌≡◌, ◌≢◌, ◌+◌, ◌++◌, ◌<◌, ◌≤◌, ◌^◌, ◌∷◌, [], true, Some, length, get_or, IfOk, OnOk, IsErr};
ghost use Rattle.std.specs.Vec.{vec_capacity};
ghost use Rattle.medium_model.specs.State.{Counted, IfTold};
ghost use Rattle.medium_model.specs.PowerLoss.{EveryImage};
ghost use Rattle.archive_journal.specs.Body.{entry_in, is_body};
ghost use Rattle.archive_journal.specs.Journal.{HoldsWith, IsEither, IsTold, entries_told, with_entry};
ghost use Rattle.archive_journal.specs.Places.{IsClosed, IsOpen, IsSmall};

use avl_values::Failed;
use medium_model::{CLOSED, Medium, OPEN};

const EMPTY: [u8; 9] = *b"FMBARCH1\0";

/// Where an archive ends: the place of its last gate, and how many entries are in front of it.
#[derive(Clone, Copy)]
pub struct Tail {
    pub gate: u64,
    pub bodies: u64,
}

// The body and the closed gate after it.
fn lay_out(buffer: &mut Vec<u8>, body: &[u8])
    requires { length body.now + 1 ≤ vec_capacity buffer.old }
    ensures bytes { buffer.new.items ≡ body.now ++ 0 ∷ [] }
    ensures capacity { vec_capacity buffer.old ≤ vec_capacity buffer.new }
{
    buffer.clear();
    let _body = buffer.extend_from_slice(body);
    let _gate = buffer.push(CLOSED);
}

/// Appends an entry: its body, with a closed gate after it, is durable before its gate is opened.
pub fn write_entry<M: Medium>(
    medium: &mut M,
    tail: Tail,
    body: &[u8],
    buffer: &mut Vec<u8>,
) -> Result<Tail, Failed>
    requires body { is_body body.now ≡ true }
    requires buffer { length body.now + 1 ≤ vec_capacity buffer.old }
    requires ready { tail.gate + length body.now + 2 ≤ (M.state medium.old).ready }
    requires most { tail.gate + length body.now + 2 ≤ 2 ^ 62 }
    requires bodies { tail.bodies ≤ tail.gate }
    requires closed { IfTold (M.state medium.old).content (IsClosed tail.gate tail.bodies) }

    ensures images { EveryImage (M.state medium.new).content (HoldsWith (IsEither (entries_told (M.state medium.old).content) (with_entry (entry_in body.now) (entries_told (M.state medium.old).content)))) }
    ensures tail { IfOk result (λ t. t ≡ record { gate = tail.gate + 1 + length body.now; bodies = tail.bodies + 1 }) }
    ensures added { OnOk result (entries_told (M.state medium.new).content ≡ with_entry (entry_in body.now) (entries_told (M.state medium.old).content)) }
    ensures closed { OnOk result (IfTold (M.state medium.new).content (IsClosed (tail.gate + 1 + length body.now) (tail.bodies + 1))) }
    ensures capacity { vec_capacity buffer.old ≤ vec_capacity buffer.new }
    ensures counted { Counted 4 (M.state medium.old) (M.state medium.new) (IsErr result) }
{
    lay_out(buffer, body);
    medium.write(tail.gate + 1, buffer.as_slice())?;
    medium.sync()?;
    medium.write(tail.gate, &[OPEN])?;
    medium.sync()?;
    Ok(Tail {
        gate: tail.gate + 1 + body.len() as u64,
        bodies: tail.bodies + 1,
    })
}

/// Writes the nine bytes of an empty archive.
pub fn write_empty<M: Medium>(medium: &mut M) -> Result<(), Failed>
    requires ready { 9 ≤ (M.state medium.old).ready }
    requires small { IfTold (M.state medium.old).content IsSmall }
    ensures images { EveryImage (M.state medium.new).content (HoldsWith (IsTold (Some []))) }
    ensures closed { OnOk result (IfTold (M.state medium.new).content (IsClosed 8 0)) }
    ensures counted { Counted 2 (M.state medium.old) (M.state medium.new) (IsErr result) }
{
    medium.write(0, &EMPTY)?;
    medium.sync()?;
    Ok(())
}

/// Closes the last gate.
pub fn close_gate<M: Medium>(medium: &mut M, tail: Tail) -> Result<(), Failed>
    requires ready { tail.gate + 1 ≤ (M.state medium.old).ready }
    requires open_gate { IfTold (M.state medium.old).content (IsOpen tail.gate tail.bodies) }
    ensures images { EveryImage (M.state medium.new).content (HoldsWith (IsTold (entries_told (M.state medium.old).content))) }
    ensures same { OnOk result (entries_told (M.state medium.new).content ≡ entries_told (M.state medium.old).content) }
    ensures closed { OnOk result (IfTold (M.state medium.new).content (IsClosed tail.gate tail.bodies)) }
    ensures counted { Counted 2 (M.state medium.old) (M.state medium.new) (IsErr result) }
{
    medium.write(tail.gate, &[CLOSED])?;
    medium.sync()?;
    Ok(())
}
