ghost use Rattle.std.specs.Prelude.{◌≡◌, ◌+◌, ◌-◌, ◌<◌, ◌≤◌, ◌^◌, min, max, true, false, [], length, replicate, take, drop, IfOk, OnOk, OnErr};
ghost use Rattle.medium.specs.Buffer.{IsTornImage};
ghost use Rattle.medium_model.specs.Content.{after_write, after_sync, settled, written};
ghost use Rattle.medium_model.specs.PowerLoss.{IsImage};

use crate::dirty_map::DirtyMap;
use crate::image::Image;
use avl_values::NoMemory;
use std::alloc::Global;
use std::marker::Model;

/// A medium's content in memory: what a read gives, what is durable, and what is dirty.
#[derive(Drop)]
pub struct MemoryContent {
    reads: Image,
    durable: Image,
    dirty: DirtyMap,
    ready: u64,
}

impl Model for MemoryContent {
    ghost use Rattle.medium.specs.Buffer.{ReadyContent, FitTogether, content_of};

    ghost Value = { ReadyContent };

    ghost view = { λ m. record { content = content_of m.reads m.durable m.dirty; ready = m.ready } };

    ghost invariant = { λ m. FitTogether m.reads m.durable m.dirty m.ready };
}

impl MemoryContent {
    /// It is empty. It takes no memory.
    pub fn new(alloc: Global) -> MemoryContent
        ensures { result ≡ record { content = settled []; ready = 0 } }
    {
        MemoryContent {
            reads: Image::new(alloc),
            durable: Image::new(alloc),
            dirty: DirtyMap::new(alloc),
            ready: 0,
        }
    }

    /// These bytes, all of them durable.
    pub fn from_slice(alloc: Global, bytes: &[u8]) -> Result<MemoryContent, NoMemory>
        requires { length bytes.now ≤ 2 ^ 62 }
        ensures { IfOk result (λ m. m ≡ record { content = settled bytes.now; ready = length bytes.now }) }
    {
        let reads = Image::from_vec(Vec::from_slice(alloc, bytes)?);
        let durable = Image::from_vec(Vec::from_slice(alloc, bytes)?);
        let mut dirty = DirtyMap::new(alloc);
        dirty.grow(bytes.len())?;
        Ok(MemoryContent {
            reads,
            durable,
            dirty,
            ready: bytes.len() as u64,
        })
    }

    /// The end, in bytes, up to which a write takes no memory. What a read gives is an image.
    pub fn ready(&self) -> u64
        ensures value { result ≡ self.now.ready }
        ensures most { result ≤ 2 ^ 62 }
        ensures fits { length self.now.content.reads ≤ result }
        ensures durable { length self.now.content.durable ≤ result }
        ensures image { IsImage self.now.content self.now.content.reads }
    {
        self.ready
    }

    /// Gets ready for writes up to a place.
    pub fn reserve(&mut self, to: u64) -> Result<(), NoMemory>
        requires { to ≤ 2 ^ 62 }
        ensures content { self.new.content ≡ self.old.content }
        ensures most { self.new.ready ≤ 2 ^ 62 }
        ensures ok { OnOk result (self.new.ready ≡ max self.old.ready to) }
        ensures err { OnErr result (self.new.ready ≡ self.old.ready) }
    {
        self.reads.grow(to as usize)?;
        self.durable.grow(to as usize)?;
        self.dirty.grow(to as usize)?;
        self.ready = self.ready.max(to);
        Ok(())
    }

    /// How many bytes a read sees.
    pub fn len(&self) -> u64
        ensures { result ≡ length self.now.content.reads }
    {
        self.reads.len() as u64
    }

    /// The bytes that a read sees, from place 0.
    pub fn as_slice(&self) -> &[u8]
        ensures { result.now ≡ self.now.content.reads }
    {
        self.reads.as_slice()
    }

    /// Copies the bytes at a place, as many as there are and fit.
    pub fn read(&self, at: u64, into: &mut [u8]) -> usize
        ensures bound { result ≤ length into.new }
        ensures count { result ≡ min (length into.old) (length self.now.content.reads - at) }
        ensures bytes { take result into.new ≡ take result (drop at self.now.content.reads) }
    {
        self.reads.read(at, into)
    }

    /// Writes bytes at a place.
    pub fn write(&mut self, at: u64, from: &[u8])
        requires some { 0 < length from.now }
        requires ready { at + length from.now ≤ self.old.ready }
        ensures { self.new ≡ record self.old { content = after_write at from.now self.old.content } }
    {
        let at = at as usize;
        self.reads.put(at, from);
        self.dirty.mark(at, from.len());
    }

    /// A write of `count` bytes failed before the first.
    pub fn spoil(&mut self, at: u64, count: usize)
        requires some { 0 < count }
        requires ready { at + count ≤ self.old.ready }
        ensures { self.new ≡ record self.old { content = record self.old.content { dirty = written false at (replicate count true) self.old.content.dirty } } }
    {
        self.dirty.mark(at as usize, count);
    }

    /// What a read gives is durable now. It costs what was written since the last call, in up to 256 places.
    pub fn sync(&mut self)
        ensures content { self.new ≡ record self.old { content = after_sync self.old.content } }
        ensures was { IsImage self.old.content self.old.content.reads }
    {
        self.durable.copy_from(&self.reads, self.dirty.spans());
        self.dirty.clear();
    }

    /// A read gives what is durable.
    pub fn revert(&mut self)
        ensures content { self.new ≡ record self.old { content = record self.old.content { reads = self.old.content.durable } } }
        ensures was { IsImage self.old.content self.old.content.durable }
    {
        self.reads.copy_from(&self.durable, self.dirty.spans());
    }

    /// A read gives this image.
    pub fn read_as(&mut self, image: &Image)
        requires torn { IsTornImage self.old.content image.now.bytes }
        requires room { self.old.ready ≤ image.now.room }
        ensures content { self.new ≡ record self.old { content = record self.old.content { reads = image.now.bytes } } }
        ensures was { IsImage self.old.content image.now.bytes }
    {
        self.reads.copy_from(image, self.dirty.spans());
    }

    /// Gives an image what a read gives.
    pub fn copy_to(&self, image: &mut Image)
        requires torn { IsTornImage self.now.content image.old.bytes }
        requires room { self.now.ready ≤ image.old.room }
        ensures { image.new ≡ record image.old { bytes = self.now.content.reads } }
    {
        image.copy_from(&self.reads, self.dirty.spans());
    }
}
