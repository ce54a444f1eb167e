ghost use Rattle.std.specs.Prelude.{◌≡◌, ℕ, List, None, IfErr, OnOk, false, length};
ghost use Rattle.std.specs.List.{All};
ghost use Rattle.avl_values.specs.Viewed.{record_of, records_viewed};
ghost use Rattle.fmb_drive.specs.Halts.{Halts};
ghost use Rattle.fmb_drive.specs.Log.{drive_text};
ghost use Rattle.fmb_drive.specs.Runs.{BeginsStores, gives_up};
ghost use Rattle.fmb_drive.specs.Steps.{Gives, StoresAll};
ghost use Rattle.fmb_io.specs.Printed.{PrintsWhole, SinkSteady};
ghost use Rattle.record_codecs.specs.SomeRecord.{IsSomeRecord};
ghost use Rattle.tracker_session.specs.Keeping.{Keeps};
ghost use Rattle.tracker_session.specs.Trackers.{IsSameDevice};

use crate::lines::lost_text;
use crate::stop::Stop;
use avl_values::{Failed, Imei, Rec};
use fmb_host::Host;
use fmb_io::print;
use medium_model::Medium;
use std::alloc::Global;
use tracker_session::{KeepFault, Losses, Tracker};

const SEQ_END: u64 = 1 << 63;

/// A list of losses that keeps nothing, for records that are printed as lost before the ring gives them up.
#[derive(Drop)]
struct Printed;

impl Losses for Printed {
    ghost state = { λ _. record { listed = None; faults = 0 } };

    fn faults(&self) -> u64 {
        0
    }

    fn list(&mut self, _rec: &Rec) -> Result<(), Failed> {
        Ok(())
    }
}

// Prints the oldest record of a full ring as lost.
fn print_lost<H: Host, M: Medium>(
    alloc: Global,
    host: &mut H,
    tracker: &Tracker<M>,
    imei: &Imei,
) -> Result<(), Stop>
    requires up { tracker.now.ring.down ≡ false }
    requires own { tracker.now.imei ≡ imei.now }
    ensures printed { OnOk result (PrintsWhole (drive_text tracker.now.imei (gives_up tracker.now.ring)) (H.view host.old) (H.view host.new)) }
    ensures steady { OnOk result (SinkSteady (H.view host.old) (H.view host.new)) }
    ensures stopped { (address : List ℕ) → IfErr result (λ stop. Halts address (Gives tracker.now.ring) stop tracker.now.imei (length tracker.now.ring.slots) (H.view host.old) (H.view host.new) tracker.now.ring.medium tracker.now.ring.medium) }
    ensures others { H.view host.new ≡ record (H.view host.old) { sink = (H.view host.new).sink } }
{
    let Some(oldest) = tracker.ring().oldest_if_full() else {
        return Ok(());
    };
    let Ok(text) = lost_text(alloc, imei, oldest) else {
        return Err(Stop::NoMemory);
    };
    match print(host, text.as_slice()) {
        Ok(()) => Ok(()),
        Err(Failed) => Err(Stop::SinkFault),
    }
}

/// Keeps a record. Where the ring is full, its oldest record is printed as lost before it is given up.
pub(crate) fn keep<H: Host, M: Medium>(
    alloc: Global,
    host: &mut H,
    tracker: &mut Tracker<M>,
    imei: &Imei,
    rec: &Rec,
) -> Result<(), Stop>
    requires up { tracker.old.ring.down ≡ false }
    requires own { tracker.old.imei ≡ imei.now }
    requires is_record { IsSomeRecord rec.now.codec rec.now.bytes.items }
    ensures kept { OnOk result (Keeps (record_of rec.now) false tracker.old.ring tracker.new.ring) }
    ensures printed { OnOk result (PrintsWhole (drive_text tracker.old.imei (gives_up tracker.old.ring)) (H.view host.old) (H.view host.new)) }
    ensures steady { OnOk result (SinkSteady (H.view host.old) (H.view host.new)) }
    ensures stopped { (address : List ℕ) → IfErr result (λ stop. Halts address (Gives tracker.old.ring) stop tracker.old.imei (length tracker.old.ring.slots) (H.view host.old) (H.view host.new) tracker.old.ring.medium tracker.new.ring.medium) }
    ensures same { IsSameDevice tracker.old tracker.new }
    ensures others { H.view host.new ≡ record (H.view host.old) { sink = (H.view host.new).sink } }
{
    if tracker.ring().next_seq() == SEQ_END {
        return Err(Stop::Sequence);
    }
    print_lost(alloc, host, tracker, imei)?;
    match tracker.keep(rec, &mut Printed) {
        Ok(_) => Ok(()),
        Err(KeepFault::MediumFault) => Err(Stop::MediumFault),
        Err(KeepFault::SeqSpent) => unreachable!(),
        Err(KeepFault::ListFault) => unreachable!(),
    }
}

/// Keeps records one after the other.
pub(crate) fn keep_all<H: Host, M: Medium>(
    alloc: Global,
    host: &mut H,
    tracker: &mut Tracker<M>,
    imei: &Imei,
    records: &[Rec],
) -> Result<(), Stop>
    requires up { tracker.old.ring.down ≡ false }
    requires own { tracker.old.imei ≡ imei.now }
    requires are_records { All (λ rec. IsSomeRecord rec.codec rec.bytes.items) records.now }
    ensures stored { OnOk result (StoresAll tracker.old.imei (records_viewed records.now) tracker.old.ring tracker.new.ring (H.view host.old) (H.view host.new)) }
    ensures stopped { (address : List ℕ) → IfErr result (λ stop. Halts address (BeginsStores (records_viewed records.now) tracker.old.ring) stop tracker.old.imei (length tracker.old.ring.slots) (H.view host.old) (H.view host.new) tracker.old.ring.medium tracker.new.ring.medium) }
    ensures same { IsSameDevice tracker.old tracker.new }
    ensures others { H.view host.new ≡ record (H.view host.old) { sink = (H.view host.new).sink } }
{
    for rec in records {
        keep(alloc, host, tracker, imei, rec)?;
    }
    Ok(())
}
