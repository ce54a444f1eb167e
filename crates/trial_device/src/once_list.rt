//! A list that holds each record once, at its first place.
ghost use Rattle.std.specs.Prelude.{◌≡◌, ◌∷◌, [], ◌++◌, length, IsTrue, OnOk, OnErr, true};
ghost use Rattle.avl_values.specs.Viewed.{record_of, records_viewed};
ghost use Rattle.record_lists.specs.SameRecord.{is_same};
ghost use Rattle.trial_model.specs.RecordLists.{add_once, is_listed};

use crate::digest::digest;
use avl_values::{NoMemory, Rec, RecList};
use std::alloc::Global;
use std::collections::BTreeMap;
use std::marker::Model;

/// Each record once, at its first place. Contracts see the list.
///
/// A record is looked for under its digest of 64 bits. Only where two records have one digest is the list gone through.
#[derive(Drop)]
pub struct OnceList {
    items: Vec<Rec>,
    places: BTreeMap<u64, u64>,
}

impl Model for OnceList {
    ghost use Rattle.std.specs.Prelude.{List};
    ghost use Rattle.avl_values.specs.Record.{Record};
    ghost use Rattle.avl_values.specs.Viewed.{records_viewed};
    ghost use Rattle.trial_device.specs.Index.{IsIndexed, place_in};

    ghost Value = { List Record };

    ghost view = { λ l. records_viewed l.items.items };

    ghost invariant = { λ l. IsIndexed (records_viewed l.items.items) (place_in l.places) };
}

// Whether two records are one.
fn is_same(a: &Rec, b: &Rec) -> bool
    ensures { result ≡ is_same (record_of a.now) (record_of b.now) }
{
    a.codec == b.codec && a.bytes.as_slice() == b.bytes.as_slice()
}

// Whether a record is in the list.
fn is_among(list: &[Rec], rec: &Rec) -> bool
    ensures { result ≡ is_listed (records_viewed list.now) (record_of rec.now) }
{
    for item in list {
        if is_same(item, rec) {
            return true;
        }
    }
    false
}

// Whether the record at a place is this one.
fn is_at(list: &[Rec], place: u64, rec: &Rec) -> bool
    ensures { IsTrue result → is_listed (records_viewed list.now) (record_of rec.now) ≡ true }
{
    if place >= list.len() as u64 {
        return false;
    }
    is_same(&list[place as usize], rec)
}

impl OnceList {
    /// The empty list. It takes no memory.
    pub fn new(alloc: Global) -> OnceList
        ensures { result ≡ [] }
    {
        OnceList {
            items: Vec::new(alloc),
            places: BTreeMap::new(alloc),
        }
    }

    /// Whether a record is in the list.
    pub fn has(&self, rec: &Rec) -> bool
        ensures { result ≡ is_listed self.now (record_of rec.now) }
    {
        match self.places.get(&digest(rec)).copied() {
            None => false,
            Some(place) => is_at(&self.items, place, rec) || is_among(&self.items, rec),
        }
    }

    /// Puts a record last, unless the list has it. NoMemory leaves the list as it was.
    pub fn add(&mut self, rec: &Rec) -> Result<(), NoMemory>
        ensures ok { OnOk result (self.new ≡ add_once self.old (record_of rec.now)) }
        ensures err { OnErr result (self.new ≡ self.old) }
    {
        if self.has(rec) {
            return Ok(());
        }
        self.push(rec)
    }

    // Puts a new record last.
    fn push(&mut self, rec: &Rec) -> Result<(), NoMemory>
        ensures ok { OnOk result (self.new ≡ self.old ++ record_of rec.now ∷ []) }
        ensures err { OnErr result (self.new ≡ self.old) }
    {
        let place = self.items.len() as u64;
        self.items.reserve(1)?;
        self.places.insert(digest(rec), place)?;
        self.items.push(rec.copy())?;
        Ok(())
    }

    /// The records, in order. It takes no memory.
    pub fn into_list(self) -> RecList
        ensures { result ≡ self }
    {
        let OnceList { items, .. } = self;
        RecList::from_vec(items)
    }
}
