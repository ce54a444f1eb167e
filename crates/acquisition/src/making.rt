//! The records that a fix makes.
ghost use Rattle.std.specs.Prelude.{◌≡◌, ◌≤◌, length, map};
ghost use Rattle.std.specs.List.{AllByRecursion};
ghost use Rattle.std.specs.Int.{abs_diff};
ghost use Rattle.avl_values.specs.RecordValue.{value_of};
ghost use Rattle.avl_values.specs.Viewed.{record_of, records_viewed};
ghost use Rattle.record_layout.specs.SomeRecord.{IsSomeRecord};
ghost use Rattle.record_layout.specs.Spelling.{HasNoOther, IsRecord};
ghost use Rattle.record_writing.specs.Length.{record_length};
ghost use Rattle.record_writing.specs.Refusal.{HasNarrowIds};
ghost use Rattle.acquisition.specs.Checked.{AreChecked, AreNarrow, IsNarrow};
ghost use Rattle.acquisition.specs.Deciding.{is_due, last_of, made, plain_if, reaches, turned};
ghost use Rattle.acquisition.specs.Elements.{ValuesFit};
ghost use Rattle.acquisition.specs.Firing.{fired, seen, watched_by};
ghost use Rattle.acquisition.specs.Made.{in_codec, event_record, record_at, value_at};
ghost use Rattle.acquisition.specs.Sound.{AreRecordsOf};

use crate::elements::elements;
use crate::firing::fired;
use crate::fix::Fix;
use crate::last_fix::LastFix;
use crate::settings::Settings;
use arrayvec::ArrayVec;
use avl_values::{AvlRecord, Codec, NxList, Rec};
use io_operands::{IoSetting, Watch};
use record_writing::write_record;

impl LastFix {
    /// What is kept of a fix that made a record.
    pub fn of(fix: &Fix) -> LastFix
        ensures { result ≡ last_of fix.now }
    {
        LastFix {
            time: fix.time,
            odometer: fix.odometer,
            angle: fix.gps.angle,
            speed: fix.gps.speed,
        }
    }
}

/// Whether a difference is at least its setting, which isn't switched off.
fn reaches(setting: u64, difference: u64) -> bool
    ensures { result ≡ reaches setting difference }
{
    setting != 0 && setting <= difference
}

/// The angle between two directions in degrees, the shorter way round.
fn turned(a: u16, b: u16) -> u16
    ensures { result ≡ turned a b }
{
    let d = a.abs_diff(b) % 360;
    d.min(360 - d)
}

/// A generation type, which only Codec 16 has.
fn in_codec(codec: Codec, generation: u8) -> u8
    ensures { result ≡ in_codec codec generation }
{
    match codec {
        Codec::C8 | Codec::C8E => 0,
        Codec::C16 => generation,
    }
}

/// The record of a value that the codec has and that has room.
fn spell(codec: Codec, value: &AvlRecord) -> Rec
    requires in_codec { HasNoOther codec (value_of value.now) }
    requires narrow { HasNarrowIds codec value.now }
    requires room { record_length codec (value_of value.now) ≤ 255 }
    ensures codec { result.codec ≡ codec }
    ensures record { IsRecord codec (value_of value.now) result.bytes.items }
{
    let mut bytes = ArrayVec::new();
    let _written = write_record(codec, value, &mut bytes);
    Rec { codec, bytes }
}

impl Settings {
    /// A record of a fix before it is spelled.
    fn draft(&self, fix: &Fix, event: u16, priority: u8, generation: u8) -> AvlRecord
        requires { ValuesFit self.now.ios fix.now.values.items }
        ensures value { value_of result ≡ value_at self.now fix.now event priority generation }
        ensures in_codec { HasNoOther self.now.codec (value_of result) }
        ensures narrow { IsNarrow self.now.codec event → HasNarrowIds self.now.codec result }
        ensures room { record_length self.now.codec (value_of result) ≤ 255 }
    {
        AvlRecord {
            time: fix.time,
            priority,
            gps: fix.gps,
            event,
            generation: in_codec(self.codec, generation),
            ios: elements(self.ios.as_slice(), fix.values.as_slice()),
            nx: NxList::new(),
        }
    }

    fn record(&self, fix: &Fix, event: u16, priority: u8, generation: u8) -> Rec
        requires fit { ValuesFit self.now.ios fix.now.values.items }
        requires narrow { IsNarrow self.now.codec event }
        ensures record { record_of result ≡ record_at self.now fix.now event priority generation }
        ensures some { IsSomeRecord self.now.codec result.bytes.items }
    {
        spell(self.codec, &self.draft(fix, event, priority, generation))
    }

    /// Whether a fix makes a record where no setting fires.
    fn is_due(&self, last: Option<LastFix>, fix: &Fix) -> bool
        ensures { result ≡ is_due self.now last fix.now }
    {
        let Some(last) = last else {
            return true;
        };
        reaches(self.period, fix.time.abs_diff(last.time))
            || reaches(self.distance, fix.odometer.abs_diff(last.odometer))
            || fix.gps.speed >= 5
                && reaches(self.angle as u64, turned(fix.gps.angle, last.angle) as u64)
            || reaches(self.speed as u64, fix.gps.speed.abs_diff(last.speed) as u64)
    }

    /// A record for each of these settings.
    fn event_records(&self, fix: &Fix, fired: &[IoSetting]) -> ArrayVec<Rec, 32>
        requires fit { ValuesFit self.now.ios fix.now.values.items }
        requires narrow { AreNarrow self.now.codec fired.now }
        requires few { length fired.now ≤ 32 }
        ensures made { records_viewed result.items ≡ map (event_record self.now fix.now) fired.now }
        ensures sound { AreRecordsOf self.now.codec (map (event_record self.now fix.now) fired.now) }
    {
        let mut records = ArrayVec::new();
        for s in fired {
            records.push(self.record(fix, s.id, s.priority, s.operand.generation()));
        }
        records
    }

    /// The record of a fix that is due, if it is.
    fn plain_records(&self, last: Option<LastFix>, fix: &Fix) -> ArrayVec<Rec, 32>
        requires { ValuesFit self.now.ios fix.now.values.items }
        ensures made { records_viewed result.items ≡ plain_if (is_due self.now last fix.now) self.now fix.now }
        ensures sound { AreRecordsOf self.now.codec (plain_if (is_due self.now last fix.now) self.now fix.now) }
    {
        let mut records = ArrayVec::new();
        if self.is_due(last, fix) {
            records.push(self.record(fix, 0, 0, 7));
        }
        records
    }

    /// The records of a fix at which these settings fire.
    pub(crate) fn records(
        &self,
        last: Option<LastFix>,
        fix: &Fix,
        fired: &[IoSetting],
    ) -> ArrayVec<Rec, 32>
        requires fit { ValuesFit self.now.ios fix.now.values.items }
        requires narrow { AreNarrow self.now.codec fired.now }
        requires few { length fired.now ≤ 32 }
        ensures made { records_viewed result.items ≡ made self.now last fix.now fired.now }
        ensures sound { AreRecordsOf self.now.codec (made self.now last fix.now fired.now) }
    {
        match fired {
            [] => self.plain_records(last, fix),
            _ => self.event_records(fix, fired),
        }
    }

    /// The settings that fire at a fix, and the watches after it.
    pub(crate) fn fire(
        &self,
        watches: &[Watch],
        values: &[u64],
    ) -> (ArrayVec<IoSetting, 32>, ArrayVec<Watch, 32>)
        requires watched { watches.now ≡ watched_by self.now.ios (seen watches.now) }
        requires fit { ValuesFit self.now.ios values.now }
        ensures fired { result.0.items ≡ fired watches.now values.now }
        ensures narrow { AreNarrow self.now.codec result.0.items }
        ensures remembers { result.1.items ≡ watched_by self.now.ios values.now }
        ensures seen { seen result.1.items ≡ values.now }
    {
        let _ios = &self.ios;
        fired(watches, values)
    }
}
