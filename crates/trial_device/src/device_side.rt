//! One device of a trial.
ghost use Rattle.std.specs.Prelude.{◌≡◌, ◌⊎◌, ◌↔◌, ◌+◌, ◌<◌, ◌≤◌, ◌^◌, [], false, true, length, None, Some, Ok, IfOk, IsSome, OnOk};
ghost use Rattle.acquisition.specs.Deciding.{decided};
ghost use Rattle.acquisition.specs.Elements.{ValuesFit};
ghost use Rattle.acquisition.specs.Sound.{AreRecordsOf};
ghost use Rattle.avl_values.specs.Causes.{Rose};
ghost use Rattle.avl_values.specs.Viewed.{record_of, records_viewed};
ghost use Rattle.flash_ring.specs.Entries.{held_of};
ghost use Rattle.flash_ring.specs.Ring.{EverySound, IsDurable};
ghost use Rattle.medium_model.specs.CallsLeft.{exhausted, unlimited};
ghost use Rattle.medium_model.specs.State.{IfTold};
ghost use Rattle.record_codecs.specs.SomeRecord.{IsSomeRecord};
ghost use Rattle.tracker_session.specs.Turns.{BreaksWith};
ghost use Rattle.tracker_session.specs.WholeRounds.{IsWholeRound, TalksWhere};
ghost use Rattle.trial_model.specs.Script.{settings_of};
ghost use Rattle.trial_device.specs.Counting.{IsCounting};
ghost use Rattle.trial_device.specs.SideLines.{EndsSide, HasDrained, PowersSide, armed_ring, end_of};
ghost use Rattle.trial_device.specs.Starting.{StartsSide};
ghost use Rattle.trial_device.specs.Storing.{FixesSide, Stores, StoresAll, with_first};

use crate::flash::formatted;
use crate::lost::Lost;
use crate::once_list::OnceList;
use acquisition::{Acquirer, Settings};
use arrayvec::ArrayVec;
use avl_values::{Imei, MediumFault, NoMemory, Order, Rec, RecList};
use flash_ring::Ring;
use frame_channel::Link;
use medium_model::{Bench, Tear};
use std::alloc::Global;
use std::marker::Model;
use tracker_session::{KeepFault, RoundEnd, Shell, Tracker};
use trial_model::Fix;

/// One device of a trial: what acquires its records, the tracker that keeps and sends them over a ring on a bench, and the lists of
/// what was acquired, cut and overwritten.
#[derive(Drop)]
pub struct DeviceSide<B: Bench> {
    tracker: Tracker<B>,
    acquirer: Acquirer,
    slots: u16,
    known: bool,
    fuse: Option<(u64, Tear)>,
    acquired: OnceList,
    cut: OnceList,
    overwritten: OnceList,
    alloc: Global,
}

impl<B: Bench> Model for DeviceSide<B> {
    ghost use Rattle.trial_device.specs.Sides.{Side};
    ghost use Rattle.trial_device.specs.Fuses.{calls_of};

    ghost Value = { Side };

    ghost view = { λ d. record {
      device = record {
        imei = d.tracker.imei;
        codec = d.acquirer.settings.codec;
        slots = d.slots;
        order = d.tracker.order;
        period = d.acquirer.settings.period;
        distance = d.acquirer.settings.distance;
        angle = d.acquirer.settings.angle;
        speed = d.acquirer.settings.speed;
        known = d.known;
        settings = d.acquirer.settings.ios;
      };
      ring = d.tracker.ring;
      watching = d.acquirer.watching;
      fuse = calls_of d.fuse;
      acquired = d.acquired;
      cut = d.cut;
      overwritten = d.overwritten;
    } };
}

/// What is left of a device at a trial's end.
#[derive(Drop)]
pub struct DeviceParts<B: Bench> {
    pub ring: Ring<B>,
    /// The records that the device made, in order.
    pub acquired: RecList,
    /// Those whose storing failed, in the order of their failure.
    pub cut: RecList,
    /// Those that a full ring gave up, in that order.
    pub overwritten: RecList,
}

// Lists the record that was lost, if one was.
fn list_lost(list: &mut OnceList, lost: &Lost) -> Result<(), NoMemory>
    ensures { OnOk result (list.new ≡ with_first (records_viewed lost.now.records.items) list.old) }
{
    match lost.records.first() {
        None => Ok(()),
        Some(rec) => list.add(rec),
    }
}

impl<B: Bench> DeviceSide<B> {
    /// A device at power-up, over a ring of N slots, which holds nothing, on an empty bench. `known` says that the server accepts
    /// its login. It is refused only where memory is.
    pub fn new(
        alloc: Global,
        bench: B,
        imei: Imei,
        settings: Settings,
        order: Order,
        slots: u16,
        known: bool,
    ) -> Result<DeviceSide<B>, NoMemory>
        requires some { 1 ≤ slots }
        requires few { slots ≤ 4096 }
        requires empty { IfTold (B.state bench).content (λ c. c.reads ≡ []) }
        requires unarmed { (B.state bench).left ≡ unlimited }
        ensures { IfOk result (StartsSide (record {
          imei = imei;
          codec = settings.codec;
          slots = slots;
          order = order;
          period = settings.period;
          distance = settings.distance;
          angle = settings.angle;
          speed = settings.speed;
          known = known;
          settings = settings.ios;
        })) }
    {
        let ring = formatted(alloc, bench, slots)?;
        Ok(DeviceSide {
            tracker: Tracker::new(imei, ring, order),
            acquirer: Acquirer::new(settings),
            slots,
            known,
            fuse: None,
            acquired: OnceList::new(alloc),
            cut: OnceList::new(alloc),
            overwritten: OnceList::new(alloc),
            alloc,
        })
    }

    /// Its IMEI.
    pub fn imei(&self) -> Imei
        ensures { result ≡ self.now.device.imei }
    {
        self.tracker.imei()
    }

    /// Sets a fuse for the next line of this device's medium, in place of one that waits (a `fuse` line).
    pub fn arm_fuse(&mut self, calls: u64, tear: Tear)
        ensures { self.new ≡ record self.old { fuse = Some calls } }
    {
        self.fuse = Some((calls, tear));
    }

    /// A power loss between two calls of the medium, and power-up (a `power` line).
    pub fn power(&mut self)
        requires { EverySound self.old.ring }
        ensures { PowersSide self.old self.new }
    {
        self.fuse = None;
        match self.tracker.restart() {
            Ok(()) => self.acquirer.power_up(),
            Err(_) => unreachable!(),
        }
    }

    /// Begins a line that a fuse may cover: where one waits, the medium is armed.
    pub fn begin(&mut self)
        requires { self.old.ring.medium.left ≡ unlimited }
        ensures armed { self.new ≡ record self.old { ring = armed_ring self.old.fuse self.old.ring } }
        ensures told { (self.old.fuse ≡ None) ⊎ IsSome self.new.ring.medium.content }
    {
        match self.fuse {
            None => (),
            Some((calls, tear)) => self.tracker.arm(calls, tear),
        }
    }

    /// Ends a line that a fuse may cover: where one waited, with a power loss and power-up, and then none waits.
    pub fn end(&mut self)
        requires { EverySound self.old.ring }
        ensures { EndsSide self.old.fuse self.old self.new }
    {
        match self.fuse {
            None => (),
            Some(_) => self.power(),
        }
    }

    // Keeps a record in a ring that is up. It is stored, or listed as cut.
    fn keep(&mut self, rec: &Rec) -> Result<(), NoMemory>
        requires up { self.old.ring.down ≡ false }
        requires unspent { self.old.ring.next < 2 ^ 63 }
        requires is_record { IsSomeRecord rec.now.codec rec.now.bytes.items }
        ensures { OnOk result (Stores (record_of rec.now) self.old self.new) }
    {
        self.acquired.add(rec)?;
        let mut lost = Lost::new(self.alloc);
        match self.tracker.keep(rec, &mut lost) {
            Ok(_) => list_lost(&mut self.overwritten, &lost),
            Err(KeepFault::MediumFault) => {
                list_lost(&mut self.overwritten, &lost)?;
                self.cut.add(rec)
            }
            Err(KeepFault::ListFault) => Err(NoMemory),
            Err(KeepFault::SeqSpent) => unreachable!(),
        }
    }

    // Opens the ring again, where its bench has failed: it fails again, and the record is listed as cut.
    fn cut_later(&mut self, rec: &Rec) -> Result<(), NoMemory>
        requires down { self.old.ring.down ≡ true }
        requires spent { self.old.ring.medium.left ≡ exhausted }
        requires told { IsSome self.old.ring.medium.content }
        ensures { OnOk result (Stores (record_of rec.now) self.old self.new) }
    {
        match self.tracker.reopen() {
            Ok(()) => unreachable!(),
            Err(_) => {
                self.acquired.add(rec)?;
                self.cut.add(rec)
            }
        }
    }

    // Stores a record that was acquired, or lists it as cut.
    fn store(&mut self, rec: &Rec) -> Result<(), NoMemory>
        requires counting { IsCounting 1 self.old.ring }
        requires is_record { IsSomeRecord rec.now.codec rec.now.bytes.items }
        ensures { OnOk result (Stores (record_of rec.now) self.old self.new) }
    {
        if self.tracker.is_down() {
            return self.cut_later(rec);
        }
        self.keep(rec)
    }

    // The records that a fix makes.
    fn acquire(&mut self, fix: &Fix) -> ArrayVec<Rec, 32>
        requires { ValuesFit self.old.device.settings fix.now.values.items }
        ensures records { records_viewed result.items ≡ (decided (settings_of self.old.device) self.old.watching fix.now).records }
        ensures side { self.new ≡ record self.old { watching = (decided (settings_of self.old.device) self.old.watching fix.now).watching } }
        ensures sound { AreRecordsOf self.old.device.codec (records_viewed result.items) }
    {
        self.acquirer.fix(fix)
    }

    // Stores these records, one after the other.
    fn store_all(&mut self, records: &[Rec]) -> Result<(), NoMemory>
        requires counting { IsCounting (length records.now) self.old.ring }
        requires are_records { AreRecordsOf self.old.device.codec (records_viewed records.now) }
        ensures stores { OnOk result (StoresAll (records_viewed records.now) self.old self.new) }
        ensures sound { OnOk result (EverySound self.new.ring) }
    {
        for rec in records {
            self.store(rec)?;
        }
        Ok(())
    }

    /// A fix is given to the device, which stores the records that it makes, one after the other (a `fix` line). A record whose
    /// storing fails is listed as cut, and the oldest record of a full ring as overwritten. After NoMemory the device isn't to be used
    /// further.
    pub fn fix(&mut self, fix: &Fix) -> Result<(), NoMemory>
        requires values { ValuesFit self.old.device.settings fix.now.values.items }
        requires durable { IsDurable self.old.ring }
        requires idle { self.old.ring.medium.left ≡ unlimited }
        requires short { self.old.ring.next + length (decided (settings_of self.old.device) self.old.watching fix.now).records ≤ 2 ^ 63 }
        ensures { OnOk result (FixesSide fix.now self.old self.new) }
    {
        self.begin();
        let records = self.acquire(fix);
        self.store_all(records.as_slice())?;
        self.end();
        Ok(())
    }

    /// One connection with at most `most` batches, over the medium as `begin` left it: what the tracker's round does to its ring, its
    /// link and its shell, and nothing else of the device changes.
    pub fn round<L: Link, S: Shell>(
        &mut self,
        link: &mut L,
        shell: &mut S,
        most: u32,
    ) -> Result<RoundEnd, MediumFault>
        requires up { self.old.ring.down ≡ false }
        requires some { 0 < most }
        ensures side { self.new ≡ record self.old { ring = self.new.ring } }
        ensures round { IsWholeRound (record { says = S.says; obeyed = S.obeyed }) (record { imei = self.old.device.imei; sends = self.old.device.order; slots = self.old.ring.slots; most = most; shell = shell.old })
            (Rose (L.state link.old).faults (L.state link.new).faults) self.old.ring self.new.ring shell.new (L.state link.old).told (L.state link.new).told result }
        ensures talks { (Rose (L.state link.old).faults (L.state link.new).faults → ⊥) → (result ≡ Ok RoundEnd.Empty → ⊥) → TalksWhere self.old.device.imei most result self.old.ring self.new.ring (L.state link.old).told (L.state link.new).told }
        ensures empty { result ≡ Ok RoundEnd.Empty ↔ (held_of self.old.ring.slots ≡ []) }
        ensures nothing { result ≡ Ok RoundEnd.Empty → (link.new ≡ link.old) × (shell.new ≡ shell.old) × (self.new.ring ≡ self.old.ring) }
        ensures drained { length self.old.ring.slots < most → HasDrained true (end_of result) self.new.ring }
        ensures broken { BreaksWith result (L.state link.old) (L.state link.new) }
        ensures follows { L.follows link.old link.new }
    {
        self.tracker.round(link, shell, most)
    }

    /// What is left of it: its ring, and its lists. It takes no memory.
    pub fn into_parts(self) -> DeviceParts<B>
        ensures ring { result.ring ≡ self.ring }
        ensures acquired { result.acquired ≡ self.acquired }
        ensures cut { result.cut ≡ self.cut }
        ensures overwritten { result.overwritten ≡ self.overwritten }
    {
        let DeviceSide {
            tracker,
            acquired,
            cut,
            overwritten,
            ..
        } = self;
        DeviceParts {
            ring: tracker.into_ring(),
            acquired: acquired.into_list(),
            cut: cut.into_list(),
            overwritten: overwritten.into_list(),
        }
    }
}
