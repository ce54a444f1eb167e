//! A `round` or `drain` line over its device's side and the server's archive.
ghost use Rattle.std.specs.Prelude.{◌≡◌, ◌<◌, ◌≤◌, false, is_none, is_some, length, take, IfNone, IfOk, IfSome};
ghost use Rattle.flash_ring.specs.Ring.{IsDurable};
ghost use Rattle.medium_model.specs.CallsLeft.{unlimited};
ghost use Rattle.trial_loop.specs.Rounded.{RoundsBoth};
ghost use Rattle.trial_device.specs.SideLines.{end_of as device_end};
ghost use Rattle.trial_talks.specs.Rounds.{server_by};
ghost use Rattle.trial_wire.specs.Hearing.{HasTaken, rest_in};

use crate::connection::server_end;
use avl_values::{Imei, NoMemory};
use medium_model::Bench;
use session_core::{Known, Session};
use shelf::Shelf;
use std::alloc::Global;
use trial_device::{DeviceSide, end_of};
use trial_model::{ConnectionOutcome, ServerEnd};
use trial_talks::{Carried, ConnectionLine, connect};

/// What a line leaves of its connection, with the session where that goes on, and of the server.
#[derive(Drop)]
pub struct Rounded<B: Bench> {
    pub log: ConnectionOutcome,
    pub session: Option<Session>,
    pub shelf: Shelf<B>,
    pub known: Known,
}

// The session, where it didn't end.
fn if_going(ended: Option<ServerEnd>, session: Session) -> Option<Session>
    ensures going { is_some result ≡ is_none ended }
    ensures same { IfSome result (λ s. s ≡ session) }
{
    match ended {
        None => Some(session),
        Some(_) => None,
    }
}

// What is left of a round and its wire.
fn left_of<B: Bench>(imei: Imei, carried: Carried<B>) -> Rounded<B>
    ensures log { IfNone carried.wire.ended (HasTaken (take carried.wire.given carried.wire.up) carried.wire.session) → result.log ≡ record {
      imei = imei;
      up = carried.wire.up;
      up_given = carried.wire.given;
      down = carried.wire.down;
      down_given = carried.wire.heard;
      device = device_end carried.result;
      server = server_by carried.wire.ended (length (rest_in (take carried.wire.given carried.wire.up)));
    } }
    ensures going { is_some result.session ≡ is_none carried.wire.ended }
    ensures session { IfSome result.session (λ s. s ≡ carried.wire.session) }
    ensures shelf { result.shelf ≡ carried.wire.shelf }
    ensures known { result.known ≡ carried.wire.known }
{
    let Carried { result, wire } = carried;
    let server = server_end(wire.ended, &wire.session);
    let log = ConnectionOutcome {
        imei,
        up: wire.up,
        up_given: wire.given as u64,
        down: wire.down,
        down_given: wire.heard as u64,
        device: end_of(result),
        server,
    };
    Rounded {
        log,
        session: if_going(wire.ended, wire.session),
        shelf: wire.shelf,
        known: wire.known,
    }
}

/// A device's side connects as its line says, under the fuse that waits for it. NoMemory where a growth of memory was refused on
/// either end: the trial can't go on then.
pub fn round<B: Bench>(
    alloc: Global,
    side: &mut DeviceSide<B>,
    shelf: Shelf<B>,
    known: Known,
    line: ConnectionLine,
) -> Result<Rounded<B>, NoMemory>
    requires own { side.old.device.imei ≡ line.imei }
    requires durable { IsDurable side.old.ring }
    requires idle { side.old.ring.medium.left ≡ unlimited }
    requires few { length side.old.ring.slots ≤ 65535 }
    requires shelf { shelf.down ≡ false }
    requires piece { 0 < line.piece }
    ensures rounds { IfOk result (λ r. RoundsBoth known (record { imei = line.imei; drains = line.drains; up = line.up; down = line.down }) r.log (is_some r.session) shelf r.shelf side.old side.new) }
    ensures taken { IfOk result (λ r. IfSome r.session (HasTaken (take r.log.up_given r.log.up))) }
    ensures known { IfOk result (λ r. r.known ≡ known) }
{
    let imei = line.imei;
    side.begin();
    let carried = connect(alloc, side, shelf, known, line)?;
    side.end();
    Ok(left_of(imei, carried))
}
