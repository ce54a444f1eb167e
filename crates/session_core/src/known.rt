ghost use Rattle.std.specs.Prelude.{◌≡◌, ◌<◌, ◌↔◌, [], ◌∷◌, ◌++◌, Some, length, slice_get, IsTrue, OnOk, OnErr};
ghost use Rattle.session_core.specs.Knowing.{holds, knows};

use avl_values::{Imei, NoMemory};
use std::alloc::Global;
use std::marker::Model;

/// IMEIs in a row, seen as a list.
#[derive(Debug, Drop)]
pub struct ImeiList {
    items: Vec<Imei>,
}

impl Model for ImeiList {
    ghost use Rattle.std.specs.Prelude.{ℕ, List};

    ghost Value = { List ℕ };

    ghost view = { λ l. l.items.items };
}

impl ImeiList {
    /// The empty list. It takes no memory.
    pub fn new(alloc: Global) -> ImeiList
        ensures { result ≡ [] }
    {
        ImeiList {
            items: Vec::new(alloc),
        }
    }

    /// How many IMEIs are in it.
    pub fn len(&self) -> usize
        ensures { result ≡ length self.now }
    {
        self.items.len()
    }

    /// Whether no IMEI is in it.
    pub fn is_empty(&self) -> bool
        ensures { IsTrue result ↔ (self.now ≡ []) }
    {
        self.items.is_empty()
    }

    /// The IMEI at a place, counted from 0.
    pub fn at(&self, i: usize) -> Imei
        requires { i < length self.now }
        ensures { slice_get self.now i ≡ Some result }
    {
        self.items[i]
    }

    /// Puts the IMEI last. NoMemory changes nothing.
    pub fn push(&mut self, imei: Imei) -> Result<(), NoMemory>
        ensures ok { OnOk result (self.new ≡ self.old ++ imei ∷ []) }
        ensures err { OnErr result (self.new ≡ self.old) }
    {
        self.items.push(imei)?;
        Ok(())
    }

    /// Whether it has this IMEI.
    pub fn has(&self, imei: Imei) -> bool
        ensures { result ≡ holds self.now imei }
    {
        self.items.iter().any(|i| i.number() == imei.number())
    }
}

/// Which devices a server knows.
#[derive(Debug, Drop)]
pub enum Known {
    /// Every device.
    All,
    /// Those in the list.
    Listed(ImeiList),
}

impl Known {
    /// Whether this device is known: every one is, or it is in the list.
    pub fn has(&self, imei: Imei) -> bool
        ensures { result ≡ knows self.now imei }
    {
        match self {
            Known::All => true,
            Known::Listed(list) => list.has(imei),
        }
    }
}
