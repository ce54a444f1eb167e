//! What a device does by the lines of its script.
ghost use Rattle.std.specs.Prelude.{◌≡◌, ◌==◌, ℕ, List, IfErr, OnOk, false, length};
ghost use Rattle.acquisition.specs.Elements.{ValuesFit};
ghost use Rattle.fmb_drive.specs.Halts.{Halts};
ghost use Rattle.fmb_drive.specs.Opening.{RefusesFlash};
ghost use Rattle.fmb_drive.specs.Runs.{Begins, BeginsLine, PowersUp};
ghost use Rattle.fmb_drive.specs.Scripts.{FixesFit};
ghost use Rattle.fmb_drive.specs.Steps.{DoesAll, DoesOne, MayPowerUp, StaysUp, driver, stage};
ghost use Rattle.fmb_host.specs.Host.{AreSmall};
ghost use Rattle.tracker_session.specs.Trackers.{IsSameDevice};

use crate::connecting::connect;
use crate::stop::Stop;
use crate::storing::keep_all;
use acquisition::{Acquirer, Fix};
use avl_values::Imei;
use flash_ring::ReopenFault;
use fmb_host::Host;
use journey_script::{Script, ScriptLine};
use medium_model::Medium;
use std::alloc::Global;
use tracker_session::Tracker;
use trial_model::Who;

// The power comes back after a loss between two lines.
fn power_up<M: Medium>(tracker: &mut Tracker<M>, acquirer: &mut Acquirer) -> Result<(), Stop>
    requires up { tracker.old.ring.down ≡ false }
    ensures powered { OnOk result (PowersUp (stage tracker.old acquirer.old) (stage tracker.new acquirer.new)) }
    ensures stays { OnOk result (StaysUp tracker.old.ring tracker.new.ring) }
    ensures stopped { IfErr result (λ stop. RefusesFlash stop (length tracker.old.ring.slots) tracker.old.ring.medium tracker.new.ring.medium) }
    ensures same { IsSameDevice tracker.old tracker.new }
    ensures settings { acquirer.new.settings ≡ acquirer.old.settings }
{
    // The proof takes from it that the ring is durable.
    let _durable = tracker.is_down();
    acquirer.power_up();
    match tracker.reopen() {
        Ok(()) => Ok(()),
        Err(ReopenFault::MediumFault) => Err(Stop::MediumFault),
        Err(ReopenFault::WrongSize { got, wanted }) => Err(Stop::Size { got, wanted }),
        Err(ReopenFault::BadSlot { slot }) => Err(Stop::Slot { slot }),
    }
}

// The power of a device is lost and comes back; that of another device changes nothing here.
fn power_line<M: Medium>(
    who: &Imei,
    imei: &Imei,
    tracker: &mut Tracker<M>,
    acquirer: &mut Acquirer,
) -> Result<(), Stop>
    requires up { tracker.old.ring.down ≡ false }
    requires own { tracker.old.imei ≡ imei.now }
    ensures powered { OnOk result (MayPowerUp (tracker.old.imei == who.now) (stage tracker.old acquirer.old) (stage tracker.new acquirer.new)) }
    ensures stays { OnOk result (StaysUp tracker.old.ring tracker.new.ring) }
    ensures stopped { IfErr result (λ stop. RefusesFlash stop (length tracker.old.ring.slots) tracker.old.ring.medium tracker.new.ring.medium) }
    ensures same { IsSameDevice tracker.old tracker.new }
    ensures settings { acquirer.new.settings ≡ acquirer.old.settings }
{
    if *imei == *who {
        power_up(tracker, acquirer)
    } else {
        Ok(())
    }
}

// The records of a fix are kept; a fix of another device changes nothing here.
fn fix_line<H: Host>(
    alloc: Global,
    host: &mut H,
    who: &Imei,
    fix: &Fix,
    imei: &Imei,
    tracker: &mut Tracker<H::File>,
    acquirer: &mut Acquirer,
) -> Result<(), Stop>
    requires up { tracker.old.ring.down ≡ false }
    requires own { tracker.old.imei ≡ imei.now }
    requires fit { who.now ≡ tracker.old.imei → ValuesFit acquirer.old.settings.ios fix.now.values.items }
    ensures done { (address : List ℕ) (number : ℕ) → OnOk result (DoesOne address (driver tracker.old acquirer.old) number (ScriptLine.Fix who.now fix.now) (stage tracker.old acquirer.old) (stage tracker.new acquirer.new) (H.view host.old) (H.view host.new)) }
    ensures stopped { (address : List ℕ) (number : ℕ) → IfErr result (λ stop. Halts address (BeginsLine (driver tracker.old acquirer.old) number (ScriptLine.Fix who.now fix.now) (stage tracker.old acquirer.old)) stop tracker.old.imei (length tracker.old.ring.slots) (H.view host.old) (H.view host.new) tracker.old.ring.medium tracker.new.ring.medium) }
    ensures same { IsSameDevice tracker.old tracker.new }
    ensures settings { acquirer.new.settings ≡ acquirer.old.settings }
{
    if *who != *imei {
        return Ok(());
    }
    let records = acquirer.fix(fix);
    keep_all(alloc, host, tracker, imei, records.as_slice())
}

// Does one line of the script.
fn play_line<H: Host>(
    alloc: Global,
    host: &mut H,
    address: &str,
    number: u32,
    line: &ScriptLine,
    imei: &Imei,
    tracker: &mut Tracker<H::File>,
    acquirer: &mut Acquirer,
) -> Result<(), Stop>
    requires up { tracker.old.ring.down ≡ false }
    requires own { tracker.old.imei ≡ imei.now }
    requires small { AreSmall (H.view host.old).counts }
    requires fit { (fix : _) → line.now ≡ ScriptLine.Fix tracker.old.imei fix → ValuesFit acquirer.old.settings.ios fix.values.items }
    ensures done { OnOk result (DoesOne address.now (driver tracker.old acquirer.old) number line.now (stage tracker.old acquirer.old) (stage tracker.new acquirer.new) (H.view host.old) (H.view host.new)) }
    ensures stopped { IfErr result (λ stop. Halts address.now (BeginsLine (driver tracker.old acquirer.old) number line.now (stage tracker.old acquirer.old)) stop tracker.old.imei (length tracker.old.ring.slots) (H.view host.old) (H.view host.new) tracker.old.ring.medium tracker.new.ring.medium) }
    ensures same { IsSameDevice tracker.old tracker.new }
    ensures settings { acquirer.new.settings ≡ acquirer.old.settings }
{
    match line {
        ScriptLine::Device { .. } => Ok(()),
        ScriptLine::Setting { .. } => Ok(()),
        ScriptLine::Fix { imei: who, fix } => {
            fix_line(alloc, host, who, fix, imei, tracker, acquirer)
        }
        ScriptLine::Round { .. } => connect(alloc, host, address, number, 1, tracker),
        ScriptLine::Drain { .. } => connect(alloc, host, address, number, u32::MAX, tracker),
        ScriptLine::Late { .. } => Ok(()),
        ScriptLine::Close { .. } => Ok(()),
        ScriptLine::Power { who } => match who {
            Who::Device(device) => power_line(device, imei, tracker, acquirer),
            Who::Server => Ok(()),
        },
        ScriptLine::Fuse { .. } => Ok(()),
    }
}

/// Does the lines of a script, one after the other.
pub(crate) fn play<H: Host>(
    alloc: Global,
    host: &mut H,
    address: &str,
    script: &Script,
    imei: &Imei,
    tracker: &mut Tracker<H::File>,
    acquirer: &mut Acquirer,
) -> Result<(), Stop>
    requires up { tracker.old.ring.down ≡ false }
    requires own { tracker.old.imei ≡ imei.now }
    requires small { AreSmall (H.view host.old).counts }
    requires fit { FixesFit tracker.old.imei acquirer.old.settings script.now }
    ensures done { OnOk result (DoesAll address.now (driver tracker.old acquirer.old) script.now (stage tracker.old acquirer.old) (stage tracker.new acquirer.new) (H.view host.old) (H.view host.new)) }
    ensures stopped { IfErr result (λ stop. Halts address.now (Begins (driver tracker.old acquirer.old) script.now (stage tracker.old acquirer.old)) stop tracker.old.imei (length tracker.old.ring.slots) (H.view host.old) (H.view host.new) tracker.old.ring.medium tracker.new.ring.medium) }
{
    for i in 0..script.len() {
        let line = script.line_at(i);
        play_line(
            alloc,
            host,
            address,
            script.number_at(i),
            &line,
            imei,
            tracker,
            acquirer,
        )?;
    }
    Ok(())
}
