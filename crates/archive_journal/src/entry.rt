ghost use Rattle.std.specs.Prelude.{◌≡◌, ◌<◌, ◌++◌, ◌∷◌, [], length, slice_get, Some, IfSome, OnOk, OnErr};
ghost use Rattle.archive_journal.specs.Entry.{IsEntry, IsSomeEntry};
ghost use Rattle.record_codecs.specs.SomeRecord.{IsSomeRecord};

use avl_values::{Codec, Imei, NoMemory, WideRec};
use std::alloc::Global;
use std::marker::Model;

/// An entry of an archive: a device and 1 to 255 of its records, all in one codec.
#[derive(Drop)]
pub struct Entry {
    imei: Imei,
    codec: Codec,
    records: Vec<WideRec>,
}

impl Model for Entry {
    ghost use Rattle.archive_journal.specs.Body.{EntryValue};
    ghost use Rattle.archive_journal.specs.Entry.{IsEntry};

    ghost Value = { EntryValue };

    ghost view = { λ e. record { imei = e.imei; records = e.records.items } };

    ghost invariant = { λ e. IsEntry e.codec e.records.items };
}

impl Entry {
    /// The entry of these records.
    pub(crate) fn new(imei: Imei, codec: Codec, records: Vec<WideRec>) -> Entry
        requires { IsEntry codec records.items }
        ensures { result ≡ record { imei = imei; records = records.items } }
    {
        Entry {
            imei,
            codec,
            records,
        }
    }

    /// The device.
    pub fn imei(&self) -> Imei
        ensures { result ≡ self.now.imei }
    {
        self.imei
    }

    /// The codec of all its records.
    pub fn codec(&self) -> Codec
        ensures { IsEntry result self.now.records }
    {
        self.codec
    }

    /// How many records it has, 1 to 255.
    pub fn count(&self) -> u8
        ensures value { result ≡ length self.now.records }
        ensures some { 0 < result }
    {
        self.records.len() as u8
    }

    /// The bytes of a record, counted from 0: one record in the entry's codec.
    pub fn rec_at(&self, i: u8) -> &[u8]
        requires { i < length self.now.records }
        ensures value { IfSome (slice_get self.now.records i) (λ r. result.now ≡ r.bytes) }
        ensures is_record { IfSome (slice_get self.now.records i) (λ r. IsSomeRecord r.codec result.now) }
    {
        self.records[i as usize].bytes()
    }

    /// Its records, in order. It takes no memory.
    pub fn into_records(self) -> Vec<WideRec>
        ensures value { result.items ≡ self.records }
        ensures entry { IsSomeEntry self.records }
    {
        let Entry { records, .. } = self;
        records
    }
}

/// Entries in a row, seen as a list.
#[derive(Drop)]
pub struct EntryList {
    items: Vec<Entry>,
}

impl Model for EntryList {
    ghost use Rattle.std.specs.Prelude.{List};
    ghost use Rattle.archive_journal.specs.Body.{EntryValue};

    ghost Value = { List EntryValue };

    ghost view = { λ l. l.items.items };
}

impl EntryList {
    /// The empty list. It takes no memory.
    pub fn new(alloc: Global) -> EntryList
        ensures { result ≡ [] }
    {
        EntryList {
            items: Vec::new(alloc),
        }
    }

    /// How many entries are in it.
    pub fn len(&self) -> usize
        ensures { result ≡ length self.now }
    {
        self.items.len()
    }

    /// The entry at a place, counted from 0.
    pub fn at(&self, i: usize) -> &Entry
        requires { i < length self.now }
        ensures { slice_get self.now i ≡ Some result.now }
    {
        &self.items[i]
    }

    /// The same entries. It takes no memory.
    pub fn into_vec(self) -> Vec<Entry>
        ensures { result.items ≡ self }
    {
        let EntryList { items } = self;
        items
    }

    /// Puts the entry last. NoMemory changes nothing.
    pub(crate) fn push(&mut self, entry: Entry) -> Result<(), NoMemory>
        ensures ok { OnOk result (self.new ≡ self.old ++ entry ∷ []) }
        ensures err { OnErr result (self.new ≡ self.old) }
    {
        self.items.push(entry)?;
        Ok(())
    }
}
