//! The record list of an archive, with its index and its devices.
ghost use Rattle.std.specs.Prelude.{◌≡◌, ◌≤◌, ◌<◌, ◌^◌, ◌-◌, ◌++◌, ◌∷◌, [], false, drop, length, take, slice_get, Some, IfOk, OnOk, OnErr, IsTrue};
ghost use Rattle.record_lists.specs.EachOnce.{IsOnce};
ghost use Rattle.record_codecs.specs.SomeRecord.{IsSomeRecord};
ghost use Rattle.record_layout.specs.RecordsOf.{records_of, count_of};
ghost use Rattle.shelf.specs.Archive.{ArePlaces, Begins, add, admitted, devices_of, list_of, places_of, stored};
ghost use Rattle.shelf.specs.Index.{IsIndexed, IsListing, IsSlot, place_in};
ghost use Rattle.record_layout.specs.Body.{IsBody};
ghost use Rattle.record_layout.specs.declared.head.PacketHead.{PacketHead};

use crate::device::places;
use crate::devices::Devices;
use crate::digest::digest;
use crate::receipt::Receipt;
use crate::stored::Stored;
use archive_journal::{Entry, EntryList};
use arrayvec::ArrayVec;
use avl_values::{Codec, Imei, NoMemory, WideRec};
use record_codecs::{read_packet, records};
use std::alloc::Global;
use std::collections::BTreeMap;
use std::marker::Model;

// Places by device and a number.
type Places = BTreeMap<(u64, u64), u64>;

/// Where a record is in the list, or else a number that is free in the index, under which its place can be put.
pub enum Slot {
    Place(u64),
    Free(u64),
}

/// Each record of a device once, at its first place. Contracts see the list.
#[derive(Drop)]
pub struct Listing {
    items: Vec<Stored>,
    places: Places,
    devices: Devices,
    alloc: Global,
}

impl Model for Listing {
    ghost use Rattle.std.specs.Prelude.{List};
    ghost use Rattle.shelf.specs.Archive.{StoredValue};
    ghost use Rattle.shelf.specs.Index.{IsListing};

    ghost Value = { List StoredValue };

    ghost view = { λ l. l.items.items };

    ghost invariant = { λ l. IsListing l.items.items l.places l.devices };
}

// Whether the record at a place is this one.
fn is_at(list: &[Stored], place: u64, imei: Imei, codec: Codec, bytes: &[u8]) -> bool
    ensures yes { IsTrue result → slice_get list.now place ≡ Some (stored imei (record { codec = codec; bytes = bytes.now })) }
    ensures no { result ≡ false → slice_get list.now place ≡ Some (stored imei (record { codec = codec; bytes = bytes.now })) → ⊥ }
{
    if place >= list.len() as u64 {
        return false;
    }
    list[place as usize].is(imei, codec, bytes)
}

// The place of a record, or a number that is free for it. NoMemory comes where all 2^64 numbers are taken.
fn find(
    list: &[Stored],
    places: &Places,
    imei: Imei,
    codec: Codec,
    bytes: &[u8],
) -> Result<Slot, NoMemory>
    requires { IsIndexed list.now (place_in places.now) }
    ensures { IfOk result (IsSlot list.now (place_in places.now) imei (record { codec = codec; bytes = bytes.now })) }
{
    let first = digest(codec, bytes);
    for step in 0..u64::MAX {
        let number = first.wrapping_add(step);
        match places.get(&(imei.number(), number)).copied() {
            None => return Ok(Slot::Free(number)),
            Some(place) => {
                if is_at(list, place, imei, codec, bytes) {
                    return Ok(Slot::Place(place));
                }
            }
        }
    }
    Err(NoMemory)
}

// Puts a new record after the list, and its place under a free number. NoMemory leaves the list as it was.
fn put(
    items: &mut Vec<Stored>,
    places: &mut Places,
    devices: &mut Devices,
    number: u64,
    imei: Imei,
    rec: WideRec,
) -> Result<u64, NoMemory>
    requires listing { IsListing items.old.items places.old devices.old }
    requires free { IsSlot items.old.items (place_in places.old) imei rec (Slot.Free number) }
    requires sound { IsSomeRecord rec.codec rec.bytes }
    ensures added { OnOk result (items.new.items ≡ items.old.items ++ stored imei rec ∷ []) }
    ensures place { IfOk result (λ p. slice_get items.new.items p ≡ Some (stored imei rec)) }
    ensures err { OnErr result (items.new.items ≡ items.old.items) }
    ensures listing { IsListing items.new.items places.new devices.new }
{
    let place = items.len() as u64;
    items.reserve(1)?;
    places.insert((imei.number(), number), place)?;
    devices.note(items, imei)?;
    items.push(Stored::new(imei, rec))?;
    Ok(place)
}

impl Listing {
    /// The empty list. It takes no memory.
    pub fn new(alloc: Global) -> Listing
        ensures { result ≡ [] }
    {
        Listing {
            items: Vec::new(alloc),
            places: BTreeMap::new(alloc),
            devices: Devices::new(alloc),
            alloc,
        }
    }

    /// The list of entries' records.
    pub fn of(alloc: Global, entries: EntryList) -> Result<Listing, NoMemory>
        ensures { IfOk result (λ l. l ≡ list_of entries) }
    {
        let mut listing = Listing::new(alloc);
        for entry in entries.into_vec() {
            listing.add_entry(entry)?;
        }
        Ok(listing)
    }

    /// The records.
    pub fn records(&self) -> &[Stored]
        ensures value { result.now ≡ self.now }
        ensures once { IsOnce self.now }
    {
        self.items.as_slice()
    }

    /// The records from a place on.
    pub fn behind(&self, known: usize) -> &[Stored]
        requires { known ≤ length self.now }
        ensures { result.now ≡ drop known self.now }
    {
        &self.items[known..]
    }

    /// How many records there are.
    pub fn len(&self) -> usize
        ensures { result ≡ length self.now }
    {
        self.items.len()
    }

    /// The places of a device's records, rising.
    pub fn device(&self, imei: Imei) -> Result<Vec<u64>, NoMemory>
        ensures { IfOk result (λ v. v.items ≡ places_of self.now imei) }
    {
        places(self.alloc, &self.items, imei)
    }

    /// How many devices have records.
    pub fn devices(&self) -> u64
        ensures { result ≡ devices_of self.now }
    {
        self.devices.count
    }

    /// Adds a record at the end unless its device has it, and gives its place. NoMemory leaves the list as it was.
    pub fn add(&mut self, imei: Imei, rec: WideRec) -> Result<u64, NoMemory>
        requires { IsSomeRecord rec.codec rec.bytes }
        ensures added { OnOk result (self.new ≡ add self.old imei rec) }
        ensures place { IfOk result (λ p. slice_get self.new p ≡ Some (stored imei rec)) }
        ensures err { OnErr result (self.new ≡ self.old) }
    {
        match find(&self.items, &self.places, imei, rec.codec(), rec.bytes())? {
            Slot::Place(place) => Ok(place),
            Slot::Free(number) => put(
                &mut self.items,
                &mut self.places,
                &mut self.devices,
                number,
                imei,
                rec,
            ),
        }
    }

    // The same of bytes.
    fn add_bytes(&mut self, imei: Imei, codec: Codec, bytes: &[u8]) -> Result<u64, NoMemory>
        requires { IsSomeRecord codec bytes.now }
        ensures added { OnOk result (self.new ≡ add self.old imei (record { codec = codec; bytes = bytes.now })) }
        ensures place { IfOk result (λ p. slice_get self.new p ≡ Some (stored imei (record { codec = codec; bytes = bytes.now }))) }
        ensures err { OnErr result (self.new ≡ self.old) }
    {
        match find(&self.items, &self.places, imei, codec, bytes)? {
            Slot::Place(place) => Ok(place),
            Slot::Free(number) => {
                let rec = WideRec::new(self.alloc, codec, bytes)?;
                put(
                    &mut self.items,
                    &mut self.places,
                    &mut self.devices,
                    number,
                    imei,
                    rec,
                )
            }
        }
    }

    // Adds the records of an entry.
    fn add_entry(&mut self, entry: Entry) -> Result<(), NoMemory>
        ensures { OnOk result (self.new ≡ admitted self.old entry.imei entry.records) }
    {
        let imei = entry.imei();
        for rec in entry.into_records() {
            let _place = self.add(imei, rec)?;
        }
        Ok(())
    }

    // Adds the records of a data body, as far as memory goes.
    fn add_packet(&mut self, imei: Imei, body: &[u8]) -> Result<Receipt, NoMemory>
        requires few { length body.now ≤ 2 ^ 31 }
        requires accepted { (head : PacketHead) × IsBody head body.now }
        ensures added { OnOk result (self.new ≡ admitted self.old imei (records_of body.now)) }
        ensures places { IfOk result (λ r. ArePlaces self.new imei (records_of body.now) r.places.items) }
        ensures count { IfOk result (λ r. r.count ≡ count_of body.now) }
        ensures begins { Begins self.old self.new }
    {
        let Ok(head) = read_packet(body) else {
            unreachable!()
        };
        let mut places = ArrayVec::new();
        for bytes in records(body) {
            let place = self.add_bytes(imei, head.codec, bytes)?;
            places.push(place);
        }
        Ok(Receipt {
            count: head.count,
            places,
        })
    }

    /// Adds the records of a data body that their device doesn't have yet, each once, and gives the places of them all. NoMemory
    /// leaves the list as it was.
    pub fn stage(&mut self, imei: Imei, body: &[u8]) -> Result<Receipt, NoMemory>
        requires few { length body.now ≤ 2 ^ 31 }
        requires accepted { (head : PacketHead) × IsBody head body.now }
        ensures added { OnOk result (self.new ≡ admitted self.old imei (records_of body.now)) }
        ensures places { IfOk result (λ r. ArePlaces self.new imei (records_of body.now) r.places.items) }
        ensures count { IfOk result (λ r. r.count ≡ count_of body.now) }
        ensures longer { length self.old ≤ length self.new }
        ensures err { OnErr result (self.new ≡ self.old) }
    {
        let known = self.len();
        match self.add_packet(imei, body) {
            Ok(receipt) => Ok(receipt),
            Err(NoMemory) => {
                self.truncate(known);
                Err(NoMemory)
            }
        }
    }

    // Drops the last record.
    fn drop_last(&mut self)
        ensures { self.new ≡ take (length self.old - 1) self.old }
    {
        if let Some(last) = self.items.pop() {
            self.devices.forget(&self.items, &last);
        }
    }

    /// Keeps the first records alone.
    pub fn truncate(&mut self, len: usize)
        ensures { self.new ≡ take len self.old }
    {
        while self.items.len() > len {
            self.drop_last();
        }
    }
}
