//! A device's flash as a trial begins: a bench, formatted and opened.
ghost use Rattle.std.specs.Prelude.{◌≡◌, ◌*◌, ◌≤◌, [], replicate, IfOk, OnOk};
ghost use Rattle.flash_ring.specs.declared.load.OpenFault.TheVariants as opening;
ghost use Rattle.medium_model.specs.CallsLeft.{unlimited};
ghost use Rattle.medium_model.specs.Content.{settled};
ghost use Rattle.medium_model.specs.State.{IfTold};
ghost use Rattle.trial_device.specs.Starting.{IsFormatted};

use avl_values::{MediumFault, NoMemory};
use flash_ring::{OpenFault, Ring};
use medium_model::{Bench, ReserveError};
use std::alloc::Global;

// Makes a bench that isn't armed ready for N slots.
fn reserve<B: Bench>(bench: &mut B, slots: u16) -> Result<(), NoMemory>
    requires few { slots ≤ 4096 }
    requires unarmed { (B.state bench.old).left ≡ unlimited }
    ensures ready { OnOk result (272 * slots ≤ (B.state bench.new).ready) }
    ensures content { (B.state bench.new).content ≡ (B.state bench.old).content }
    ensures left { (B.state bench.new).left ≡ (B.state bench.old).left }
{
    match bench.reserve(272 * slots as u64) {
        Ok(()) => Ok(()),
        Err(ReserveError::NoMemory) => Err(NoMemory),
        Err(ReserveError::Failed) => unreachable!(),
    }
}

// Formats a bench that isn't armed.
fn format<B: Bench>(bench: &mut B, slots: u16)
    requires some { 1 ≤ slots }
    requires few { slots ≤ 4096 }
    requires empty { IfTold (B.state bench.old).content (λ c. c.reads ≡ []) }
    requires ready { 272 * slots ≤ (B.state bench.old).ready }
    requires unarmed { (B.state bench.old).left ≡ unlimited }
    ensures zeros { IfTold (B.state bench.new).content (λ c. c ≡ settled (replicate (272 * slots) 0)) }
    ensures unarmed { (B.state bench.new).left ≡ unlimited }
{
    match Ring::format(bench, slots) {
        Ok(()) => (),
        Err(MediumFault) => unreachable!(),
    }
}

// The one fault at a formatted bench.
fn no_memory(fault: OpenFault) -> NoMemory
    requires { fault ≡ opening.NoMemory }
{
    match fault {
        OpenFault::NoMemory => NoMemory,
        _ => unreachable!(),
    }
}

// Opens a formatted bench.
fn open<B: Bench>(alloc: Global, bench: B, slots: u16) -> Result<Ring<B>, NoMemory>
    requires some { 1 ≤ slots }
    requires few { slots ≤ 4096 }
    requires zeros { IfTold (B.state bench).content (λ c. c ≡ settled (replicate (272 * slots) 0)) }
    requires unarmed { (B.state bench).left ≡ unlimited }
    ensures { IfOk result (IsFormatted slots) }
{
    match Ring::open(alloc, bench, slots) {
        Ok(ring) => Ok(ring),
        Err((fault, _bench)) => Err(no_memory(fault)),
    }
}

/// A ring of N slots, which holds nothing, on an empty bench that isn't armed. It is refused only where memory is.
pub fn formatted<B: Bench>(alloc: Global, bench: B, slots: u16) -> Result<Ring<B>, NoMemory>
    requires some { 1 ≤ slots }
    requires few { slots ≤ 4096 }
    requires empty { IfTold (B.state bench).content (λ c. c.reads ≡ []) }
    requires unarmed { (B.state bench).left ≡ unlimited }
    ensures { IfOk result (IsFormatted slots) }
{
    let mut bench = bench;
    reserve(&mut bench, slots)?;
    format(&mut bench, slots);
    open(alloc, bench, slots)
}
