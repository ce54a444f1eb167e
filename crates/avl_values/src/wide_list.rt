ghost use Rattle.std.specs.Prelude.{◌≡◌, ◌<◌, ◌↔◌, [], ◌∷◌, ◌++◌, Some, length, slice_get, IsTrue, OnOk, OnErr};

use crate::{NoMemory, WideRec};
use std::alloc::Global;
use std::marker::Model;

/// Server's records in a row, seen as a list.
#[derive(Debug, Drop)]
pub struct WideList {
    items: Vec<WideRec>,
}

impl Model for WideList {
    ghost use Rattle.std.specs.Prelude.{List};
    ghost use Rattle.avl_values.specs.Record.{Record};

    ghost Value = { List Record };

    ghost view = { λ l. l.items.items };
}

impl WideList {
    /// The empty list. It takes no memory.
    pub fn new(alloc: Global) -> WideList
        ensures { result ≡ [] }
    {
        WideList {
            items: Vec::new(alloc),
        }
    }

    /// The same list. It takes no memory.
    pub fn from_vec(items: Vec<WideRec>) -> WideList
        ensures { result ≡ items.items }
    {
        WideList { items }
    }

    /// The same list. It takes no memory.
    pub fn into_vec(self) -> Vec<WideRec>
        ensures { result.items ≡ self }
    {
        let WideList { items } = self;
        items
    }

    /// How many records are in it.
    pub fn len(&self) -> usize
        ensures { result ≡ length self.now }
    {
        self.items.len()
    }

    /// Whether no record is in it.
    pub fn is_empty(&self) -> bool
        ensures { IsTrue result ↔ (self.now ≡ []) }
    {
        self.items.is_empty()
    }

    /// The records, in order.
    pub fn as_slice(&self) -> &[WideRec]
        ensures { result.now ≡ self.now }
    {
        self.items.as_slice()
    }

    /// The item at a place, counted from 0.
    pub fn at(&self, i: usize) -> &WideRec
        requires { i < length self.now }
        ensures { slice_get self.now i ≡ Some result.now }
    {
        &self.items[i]
    }

    /// Puts the item last. NoMemory changes nothing.
    pub fn push(&mut self, item: WideRec) -> Result<(), NoMemory>
        ensures ok { OnOk result (self.new ≡ self.old ++ item ∷ []) }
        ensures err { OnErr result (self.new ≡ self.old) }
    {
        self.items.push(item)?;
        Ok(())
    }
}
