ghost use Rattle.std.specs.Prelude.{◌≡◌, ◌<◌, ◌↔◌, [], ◌∷◌, ◌++◌, Some, length, slice_get, IsTrue, OnOk, OnErr};
ghost use Rattle.avl_values.specs.Viewed.{record_of, records_viewed};

use crate::{NoMemory, Rec};
use std::alloc::Global;
use std::marker::Model;

/// Tracker's records in a row, seen as a list.
#[derive(Debug, Drop)]
pub struct RecList {
    items: Vec<Rec>,
}

impl Model for RecList {
    ghost use Rattle.std.specs.Prelude.{List};
    ghost use Rattle.avl_values.specs.Record.{Record};
    ghost use Rattle.avl_values.specs.Viewed.{records_viewed};

    ghost Value = { List Record };

    ghost view = { λ l. records_viewed l.items.items };
}

impl RecList {
    /// The empty list. It takes no memory.
    pub fn new(alloc: Global) -> RecList
        ensures { result ≡ [] }
    {
        RecList {
            items: Vec::new(alloc),
        }
    }

    /// The same list. It takes no memory.
    pub fn from_vec(items: Vec<Rec>) -> RecList
        ensures { result ≡ records_viewed items.items }
    {
        RecList { items }
    }

    /// The same list. It takes no memory.
    pub fn into_vec(self) -> Vec<Rec>
        ensures { records_viewed result.items ≡ self }
    {
        let RecList { items } = self;
        items
    }

    /// How many records are in it.
    pub fn len(&self) -> usize
        ensures { result ≡ length self.now }
    {
        self.items.len()
    }

    /// Whether no record is in it.
    pub fn is_empty(&self) -> bool
        ensures { IsTrue result ↔ (self.now ≡ []) }
    {
        self.items.is_empty()
    }

    /// The records, in order.
    pub fn as_slice(&self) -> &[Rec]
        ensures { records_viewed result.now ≡ self.now }
    {
        self.items.as_slice()
    }

    /// The item at a place, counted from 0.
    pub fn at(&self, i: usize) -> &Rec
        requires { i < length self.now }
        ensures { slice_get self.now i ≡ Some (record_of result.now) }
    {
        &self.items[i]
    }

    /// Puts the item last. NoMemory changes nothing.
    pub fn push(&mut self, item: Rec) -> Result<(), NoMemory>
        ensures ok { OnOk result (self.new ≡ self.old ++ record_of item ∷ []) }
        ensures err { OnErr result (self.new ≡ self.old) }
    {
        self.items.push(item)?;
        Ok(())
    }
}
