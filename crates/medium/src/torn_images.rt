ghost use Rattle.std.specs.Prelude.{◌≡◌, ◌+◌, ◌<◌, ◌≤◌, [], length, OnOk};
ghost use Rattle.medium.specs.Buffer.{IsTornImage};
ghost use Rattle.medium.specs.Memory.{after_torn, all_alike};

use crate::image::Image;
use crate::memory_content::MemoryContent;
use avl_values::NoMemory;
use medium_model::OPEN;
use std::alloc::Global;
use std::marker::Model;

/// What a power loss leaves by the tears `Zero`, `AllOpen` and `Half`.
#[derive(Drop)]
pub struct TornImages {
    zero: Image,
    opened: Image,
    half: Image,
}

impl Model for TornImages {
    ghost use Rattle.std.specs.Prelude.{min};
    ghost use Rattle.medium.specs.Memory.{TearsHeld};

    ghost Value = { TearsHeld };

    ghost view = { λ t. record { tears = record { zero = t.zero.bytes; opened = t.opened.bytes; half = t.half.bytes }; room = min t.zero.room (min t.opened.room t.half.room) } };
}

impl TornImages {
    /// They are empty. It takes no memory.
    pub fn new(alloc: Global) -> TornImages
        ensures { result ≡ record { tears = all_alike []; room = 0 } }
    {
        TornImages {
            zero: Image::new(alloc),
            opened: Image::new(alloc),
            half: Image::new(alloc),
        }
    }

    /// The image that a power loss leaves where torn bytes read as 0.
    pub fn zero(&self) -> &Image
        ensures bytes { result.now.bytes ≡ self.now.tears.zero }
        ensures room { self.now.room ≤ result.now.room }
    {
        &self.zero
    }

    /// The image that a power loss leaves where torn bytes read as open gates.
    pub fn opened(&self) -> &Image
        ensures bytes { result.now.bytes ≡ self.now.tears.opened }
        ensures room { self.now.room ≤ result.now.room }
    {
        &self.opened
    }

    /// The image that a power loss leaves where a write took effect by half.
    pub fn half(&self) -> &Image
        ensures bytes { result.now.bytes ≡ self.now.tears.half }
        ensures room { self.now.room ≤ result.now.room }
    {
        &self.half
    }

    /// Gets room up to a place.
    pub fn grow(&mut self, to: usize) -> Result<(), NoMemory>
        ensures tears { self.new.tears ≡ self.old.tears }
        ensures room { self.old.room ≤ self.new.room }
        ensures enough { OnOk result (to ≤ self.new.room) }
    {
        self.zero.grow(to)?;
        self.opened.grow(to)?;
        self.half.grow(to)?;
        Ok(())
    }

    /// A write that a power loss may tear.
    pub fn write(&mut self, at: u64, from: &[u8])
        requires some { 0 < length from.now }
        requires room { at + length from.now ≤ self.old.room }
        ensures tears { self.new.tears ≡ after_torn at from.now self.old.tears }
        ensures room { self.new.room ≡ self.old.room }
    {
        let at = at as usize;
        self.zero.fill(at, from.len(), 0);
        self.opened.fill(at, from.len(), OPEN);
        let half = from.len() / 2;
        if half > 0 {
            self.half.put(at, &from[..half]);
        }
    }

    /// Nothing is left to tear: each is what a read gives.
    pub fn settle(&mut self, content: &MemoryContent)
        requires room { content.now.ready ≤ self.old.room }
        requires zero { IsTornImage content.now.content self.old.tears.zero }
        requires opened { IsTornImage content.now.content self.old.tears.opened }
        requires half { IsTornImage content.now.content self.old.tears.half }
        ensures tears { self.new.tears ≡ all_alike content.now.content.reads }
        ensures room { self.new.room ≡ self.old.room }
    {
        content.copy_to(&mut self.zero);
        content.copy_to(&mut self.opened);
        content.copy_to(&mut self.half);
    }
}
