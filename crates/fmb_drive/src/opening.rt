ghost use Rattle.std.specs.Prelude.{◌≡◌, ◌⊎◌, ◌≤◌, Err, IfErr, IfOk, OnOk, length};
ghost use Rattle.fmb_drive.specs.Drive.{Opens};
ghost use Rattle.fmb_drive.specs.Opening.{Formats, RefusesFlash, stop_of};
ghost use Rattle.medium_model.specs.State.{IsRun};

use crate::stop::Stop;
use avl_values::{Failed, MediumFault};
use flash_ring::{OpenFault, Ring};
use medium_model::{Medium, ReserveError};
use std::alloc::Global;

/// The bytes of a slot.
const SLOT_BYTES: u64 = 272;

// Formats a flash of no bytes.
fn format_empty<M: Medium>(medium: &mut M, slots: u16) -> Result<(), Stop>
    requires some { 1 ≤ slots }
    requires few { slots ≤ 4096 }
    ensures formats { OnOk result (Formats slots (M.state medium.old).content (M.state medium.new).content) }
    ensures run { IsRun (M.state medium.old) (M.state medium.new) (result ≡ Err Stop.MediumFault) }
    ensures among { IfErr result (λ stop. (stop ≡ Stop.MediumFault) ⊎ (stop ≡ Stop.NoMemory)) }
{
    match medium.len() {
        Ok(0) => {}
        Ok(_) => return Ok(()),
        Err(Failed) => return Err(Stop::MediumFault),
    }
    match medium.reserve(u64::from(slots) * SLOT_BYTES) {
        Ok(()) => {}
        Err(ReserveError::Failed) => return Err(Stop::MediumFault),
        Err(ReserveError::NoMemory) => return Err(Stop::NoMemory),
    }
    match Ring::format(medium, slots) {
        Ok(()) => Ok(()),
        Err(MediumFault) => Err(Stop::MediumFault),
    }
}

fn stop_of(fault: OpenFault) -> Stop
    ensures { result ≡ stop_of fault }
{
    match fault {
        OpenFault::MediumFault => Stop::MediumFault,
        OpenFault::WrongSize { got, wanted } => Stop::Size { got, wanted },
        OpenFault::BadSlot { slot } => Stop::Slot { slot },
        OpenFault::NoMemory => Stop::NoMemory,
    }
}

/// Opens the flash of a device. One of no bytes is formatted first. On an Err the flash is handed back.
pub(crate) fn open_ring<M: Medium>(
    alloc: Global,
    medium: M,
    slots: u16,
) -> Result<Ring<M>, (Stop, M)>
    requires some { 1 ≤ slots }
    requires few { slots ≤ 4096 }
    ensures opens { IfOk result (Opens slots (M.state medium)) }
    ensures size { IfOk result (λ ring. length ring.slots ≡ slots) }
    ensures run { IfOk result (λ ring. IsRun (M.state medium) ring.medium ⊥) }
    ensures stopped { IfErr result (λ e. RefusesFlash e.0 slots (M.state medium) (M.state e.1)) }
{
    let mut medium = medium;
    if let Err(stop) = format_empty(&mut medium, slots) {
        return Err((stop, medium));
    }
    match Ring::open(alloc, medium, slots) {
        Ok(ring) => Ok(ring),
        Err((fault, medium)) => Err((stop_of(fault), medium)),
    }
}
