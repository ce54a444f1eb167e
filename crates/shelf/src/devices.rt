//! The devices of a record list, counted as they come and go.
ghost use Rattle.std.specs.Prelude.{◌≡◌, ◌<◌, ◌^◌, ◌∷◌, ◌++◌, [], length, OnOk, OnErr};
ghost use Rattle.avl_values.specs.Record.{Record};
ghost use Rattle.shelf.specs.Archive.{stored};
ghost use Rattle.shelf.specs.Devices.{IsCounted};

use crate::stored::Stored;
use avl_values::{Imei, NoMemory};
use std::alloc::Global;
use std::collections::BTreeMap;

/// The first place of each device's records, and how many devices there are.
#[derive(Drop)]
pub struct Devices {
    pub firsts: BTreeMap<u64, u64>,
    pub count: u64,
}

impl Devices {
    /// No device. It takes no memory.
    pub fn new(alloc: Global) -> Devices
        ensures { IsCounted [] result }
    {
        Devices {
            firsts: BTreeMap::new(alloc),
            count: 0,
        }
    }

    /// Notes the device of a record that comes after this list. NoMemory changes nothing.
    pub fn note(&mut self, list: &[Stored], imei: Imei) -> Result<(), NoMemory>
        requires counted { IsCounted list.now self.old }
        requires few { length list.now < 2 ^ 63 }
        ensures counted { OnOk result ((r : Record) → IsCounted (list.now ++ stored imei r ∷ []) self.new) }
        ensures err { OnErr result (IsCounted list.now self.new) }
    {
        let number = imei.number();
        match self.firsts.get(&number).copied() {
            Some(_) => Ok(()),
            None => {
                self.firsts.insert(number, list.len() as u64)?;
                self.count += 1;
                Ok(())
            }
        }
    }

    /// Forgets the device of a record that was the last after this list, where it has no other.
    pub fn forget(&mut self, list: &[Stored], last: &Stored)
        requires { IsCounted (list.now ++ last.now ∷ []) self.old }
        ensures { IsCounted list.now self.new }
    {
        let number = last.imei().number();
        match self.firsts.get(&number).copied() {
            None => {}
            Some(first) => {
                if first == list.len() as u64 {
                    let _first = self.firsts.remove(&number);
                    self.count -= 1;
                }
            }
        }
    }
}
