ghost use Rattle.std.specs.Prelude.{◌≡◌, ◌⊎◌, ◌<◌, Err, IfErr, OnOk, false, length};
ghost use Rattle.fmb_drive.specs.Halts.{Halts};
ghost use Rattle.fmb_drive.specs.Log.{round_line};
ghost use Rattle.fmb_drive.specs.Runs.{BeginsConnection};
ghost use Rattle.fmb_drive.specs.Steps.{MakesOne};
ghost use Rattle.fmb_host.specs.Host.{AreSmall};
ghost use Rattle.fmb_io.specs.Printed.{PrintsFront, PrintsWhole, SinkFailed, SinkSteady};
ghost use Rattle.tracker_session.specs.Trackers.{IsSameDevice};

use crate::lines::round_text;
use crate::stop::Stop;
use avl_values::{Failed, MediumFault};
use fmb_host::Host;
use fmb_io::print;
use std::alloc::Global;
use tracker_session::{PlainShell, RoundEnd, Tracker};

// Prints how a connection ended.
fn print_end<H: Host>(alloc: Global, host: &mut H, line: u32, end: RoundEnd) -> Result<(), Stop>
    ensures printed { OnOk result (PrintsWhole (round_line line end) (H.view host.old) (H.view host.new)) }
    ensures steady { OnOk result (SinkSteady (H.view host.old) (H.view host.new)) }
    ensures no_memory { result ≡ Err Stop.NoMemory → H.view host.new ≡ H.view host.old }
    ensures sink_fault { result ≡ Err Stop.SinkFault → PrintsFront (round_line line end) (H.view host.old) (H.view host.new) × SinkFailed (H.view host.old) (H.view host.new) }
    ensures among { IfErr result (λ stop. (stop ≡ Stop.NoMemory) ⊎ (stop ≡ Stop.SinkFault)) }
    ensures others { H.view host.new ≡ record (H.view host.old) { sink = (H.view host.new).sink } }
{
    let Ok(text) = round_text(alloc, line, end) else {
        return Err(Stop::NoMemory);
    };
    match print(host, text.as_slice()) {
        Ok(()) => Ok(()),
        Err(Failed) => Err(Stop::SinkFault),
    }
}

/// Makes one connection with at most this number of batches, and prints how it ended.
pub(crate) fn connect<H: Host>(
    alloc: Global,
    host: &mut H,
    address: &str,
    line: u32,
    most: u32,
    tracker: &mut Tracker<H::File>,
) -> Result<(), Stop>
    requires up { tracker.old.ring.down ≡ false }
    requires some { 0 < most }
    requires small { AreSmall (H.view host.old).counts }
    ensures made { OnOk result (MakesOne address.now tracker.old.imei tracker.old.order line most tracker.old.ring tracker.new.ring (H.view host.old) (H.view host.new)) }
    ensures stopped { IfErr result (λ stop. Halts address.now (BeginsConnection tracker.old.imei tracker.old.order line most tracker.old.ring) stop tracker.old.imei (length tracker.old.ring.slots) (H.view host.old) (H.view host.new) tracker.old.ring.medium tracker.new.ring.medium) }
    ensures same { IsSameDevice tracker.old tracker.new }
{
    let Ok(mut link) = host.dial(address) else {
        return Err(Stop::HostFault);
    };
    let end = tracker.round(&mut link, &mut PlainShell, most);
    host.wire_back(link);
    match end {
        Ok(end) => print_end(alloc, host, line, end),
        Err(MediumFault) => Err(Stop::MediumFault),
    }
}
