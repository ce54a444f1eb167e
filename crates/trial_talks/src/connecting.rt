//! What a `round` or `drain` line does on both ends.
ghost use Rattle.std.specs.Prelude.{◌≡◌, ◌<◌, ◌≤◌, ◌^◌, ℕ, List, Option, false, true, length, Some, IfOk};
ghost use Rattle.avl_values.specs.Record.{Record};
ghost use Rattle.flash_ring.specs.Entries.{held_of};
ghost use Rattle.layout.specs.Bytes.{AreBytes};
ghost use Rattle.trial_device.specs.SideLines.{HasDrained, end_of};
ghost use Rattle.trial_model.specs.RecordLists.{AreIn};
ghost use Rattle.trial_server.specs.Serving.{left_by};
ghost use Rattle.trial_wire.specs.WireLinks.{IsWire};
ghost use Rattle.trial_talks.specs.Rounds.{HasRounded, RoundsOver};

use avl_values::{Imei, MediumFault, NoMemory};
use medium_model::{Bench, Medium};
use session_core::{Known, Session};
use shelf::Shelf;
use std::alloc::Global;
use tracker_session::{PlainShell, RoundEnd};
use trial_device::DeviceSide;
use trial_model::ServerEnd;
use trial_wire::{Wire, WireParts};

/// What a `round` or `drain` line says: its device, whether all batches are sent or one, how many bytes its link moves at a call,
/// and how many bytes up and down it lets through (None is no limit).
#[derive(Clone, Copy)]
pub struct ConnectionLine {
    pub imei: Imei,
    pub drains: bool,
    pub piece: usize,
    pub up: Option<u64>,
    pub down: Option<u64>,
}

/// How the device's round ended, and what its wire carried.
#[derive(Drop)]
pub struct Carried<M: Medium> {
    pub result: Result<RoundEnd, MediumFault>,
    pub wire: WireParts<M>,
}

// The elements of a slice of bytes are bytes.
fn are_bytes(bytes: &[u8])
    ensures { AreBytes bytes.now }
{}

// A device's round over a wire.
fn carry<B: Bench, M: Medium>(side: &mut DeviceSide<B>, wire: Wire<M>, most: u32) -> Carried<M>
    requires up { side.old.ring.down ≡ false }
    requires some { 0 < most }
    ensures side { side.new ≡ record side.old { ring = side.new.ring } }
    ensures over { RoundsOver side.old.device.imei most result.result side.old.ring side.new.ring wire (record {
      known = result.wire.known;
      limit = wire.limit;
      most = wire.most;
      up = result.wire.up;
      given = result.wire.given;
      down = result.wire.down;
      heard = result.wire.heard;
      shelf = result.wire.shelf;
      session = result.wire.session;
      ended = result.wire.ended;
      faults = result.wire.faults;
    }) }
    ensures wire { IsWire (record {
      known = result.wire.known;
      limit = wire.limit;
      most = wire.most;
      up = result.wire.up;
      given = result.wire.given;
      down = result.wire.down;
      heard = result.wire.heard;
      shelf = result.wire.shelf;
      session = result.wire.session;
      ended = result.wire.ended;
      faults = result.wire.faults;
    }) }
    ensures bytes { AreBytes result.wire.up }
    ensures drained { length side.old.ring.slots < most → HasDrained true (end_of result.result) side.new.ring }
{
    let mut wire = wire;
    let result = side.round(&mut wire, &mut PlainShell, most);
    let wire = wire.into_parts();
    are_bytes(wire.up.as_slice());
    Carried { result, wire }
}

// An IMEI has at most 15 digits.
fn has_digits(imei: Imei)
    ensures { imei < 10 ^ 15 }
{}

// How many batches a line sends at most.
fn most_batches(drains: bool) -> u32
    ensures some { 0 < result }
    ensures one { drains ≡ false → result ≤ 1 }
    ensures all { drains ≡ true → 65535 < result }
{
    if drains { u32::MAX } else { 1 }
}

// Memory was refused on a line, and the trial can't go on.
fn is_starved<M: Medium>(carried: &Carried<M>) -> bool
    ensures faults { result ≡ false → carried.now.wire.faults ≡ 0 }
    ensures ended { result ≡ false → carried.now.wire.ended ≡ Some ServerEnd.NoMemory → ⊥ }
{
    match carried.wire.ended {
        Some(ServerEnd::NoMemory) => true,
        _ => carried.wire.faults > 0,
    }
}

/// A `round` or `drain` line: its device connects over a new wire to a new session of the server, which has this archive and knows these
/// devices. It says how the device's round ended, and gives back what the wire was made of and carried. NoMemory where a growth of
/// memory was refused on either end: the trial can't go on then.
pub fn connect<B: Bench, M: Medium>(
    alloc: Global,
    side: &mut DeviceSide<B>,
    shelf: Shelf<M>,
    known: Known,
    line: ConnectionLine,
) -> Result<Carried<M>, NoMemory>
    requires own { side.old.device.imei ≡ line.imei }
    requires up { side.old.ring.down ≡ false }
    requires shelf { shelf.down ≡ false }
    requires piece { 0 < line.piece }
    ensures rounded { (earlier : List Record) (cover : Option ℕ) → AreIn earlier (held_of side.old.ring.slots) → side.old.ring.medium.left ≡ left_by cover
        → IfOk result (λ c. HasRounded known (record { imei = line.imei; drains = line.drains; up = line.up; down = line.down }) cover earlier c.result side.old.ring side.new.ring shelf (record {
          known = c.wire.known;
          limit = line.up;
          most = line.down;
          up = c.wire.up;
          given = c.wire.given;
          down = c.wire.down;
          heard = c.wire.heard;
          shelf = c.wire.shelf;
          session = c.wire.session;
          ended = c.wire.ended;
          faults = c.wire.faults;
        })) }
    ensures wire { IfOk result (λ c. IsWire (record {
      known = c.wire.known;
      limit = line.up;
      most = line.down;
      up = c.wire.up;
      given = c.wire.given;
      down = c.wire.down;
      heard = c.wire.heard;
      shelf = c.wire.shelf;
      session = c.wire.session;
      ended = c.wire.ended;
      faults = c.wire.faults;
    })) }
    ensures side { IfOk result (λ c. side.new ≡ record side.old { ring = side.new.ring }) }
    ensures known { IfOk result (λ c. c.wire.known ≡ known) }
    ensures drained { IfOk result (λ c. length side.old.ring.slots ≤ 65535 → HasDrained line.drains (end_of c.result) side.new.ring) }
{
    has_digits(line.imei);
    let session = Session::new(alloc)?;
    let wire = Wire::new(alloc, shelf, session, known, line.up, line.down, line.piece);
    let carried = carry(side, wire, most_batches(line.drains));
    if is_starved(&carried) {
        return Err(NoMemory);
    }
    Ok(carried)
}
