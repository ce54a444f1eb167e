ghost use Rattle.std.specs.Prelude.{◌≡◌, ◌⊎◌, ◌+◌, ◌-◌, ◌<◌, ◌≤◌, min, ℕ, [], length, get_or, replicate, take, drop, OnOk};
ghost use Rattle.medium.specs.Buffer.{EndBy, IsOutside};
ghost use Rattle.medium_model.specs.Content.{written};

use crate::spans::{Span, copy_spans, copy_to, fill_from};
use avl_values::NoMemory;
use std::alloc::Global;
use std::marker::Model;

/// The bytes of an image in memory, with room after its end.
#[derive(Drop)]
pub struct Image {
    bytes: Vec<u8>,
    len: usize,
}

impl Model for Image {
    ghost use Rattle.std.specs.Prelude.{take, length};
    ghost use Rattle.medium.specs.Buffer.{Buffer, IsPadded};

    ghost Value = { Buffer };

    ghost view = { λ i. record { bytes = take i.len i.bytes.items; room = length i.bytes.items } };

    ghost invariant = { λ i. IsPadded 0 i.len i.bytes.items };
}

// Copies as many bytes as there are and fit.
fn copy_front(from: &[u8], into: &mut [u8]) -> usize
    ensures count { result ≡ min (length into.old) (length from.now) }
    ensures bytes { take result into.new ≡ take result from.now }
{
    let count = into.len().min(from.len());
    into[..count].copy_from_slice(&from[..count]);
    count
}

impl Image {
    /// No bytes, and no room. It takes no memory.
    pub fn new(alloc: Global) -> Image
        ensures { result ≡ record { bytes = []; room = 0 } }
    {
        Image {
            bytes: Vec::new(alloc),
            len: 0,
        }
    }

    /// These bytes, and no room after them.
    pub fn from_vec(bytes: Vec<u8>) -> Image
        ensures { result ≡ record { bytes = bytes.items; room = length bytes.items } }
    {
        let len = bytes.len();
        Image { bytes, len }
    }

    /// Gets room up to a place.
    pub fn grow(&mut self, to: usize) -> Result<(), NoMemory>
        ensures bytes { self.new.bytes ≡ self.old.bytes }
        ensures room { self.old.room ≤ self.new.room }
        ensures enough { OnOk result (to ≤ self.new.room) }
    {
        if to > self.bytes.len() {
            self.bytes.reserve(to - self.bytes.len())?;
            self.bytes.resize(to, 0)?;
        }
        Ok(())
    }

    /// How many bytes the image has.
    pub fn len(&self) -> usize
        ensures { result ≡ length self.now.bytes }
    {
        self.len
    }

    /// The bytes of the image, from place 0.
    pub fn as_slice(&self) -> &[u8]
        ensures { result.now ≡ self.now.bytes }
    {
        &self.bytes[..self.len]
    }

    /// Copies the bytes at a place, as many as there are and fit.
    pub fn read(&self, at: u64, into: &mut [u8]) -> usize
        ensures bound { result ≤ length into.new }
        ensures count { result ≡ min (length into.old) (length self.now.bytes - at) }
        ensures bytes { take result into.new ≡ take result (drop at self.now.bytes) }
    {
        let bytes = self.as_slice();
        if at >= bytes.len() as u64 {
            return 0;
        }
        copy_front(&bytes[at as usize..], into)
    }

    /// Writes bytes at a place, the gap after the end filled with zero bytes.
    pub fn put(&mut self, at: usize, from: &[u8])
        requires { at + length from.now ≤ self.old.room }
        ensures { self.new ≡ record self.old { bytes = written 0 at from.now self.old.bytes } }
    {
        copy_to(self.bytes.as_mut_slice(), at, from);
        self.len = self.len.max(at + from.len());
    }

    /// Writes one byte `count` times at a place.
    pub fn fill(&mut self, at: usize, count: usize, byte: u8)
        requires { at + count ≤ self.old.room }
        ensures { self.new ≡ record self.old { bytes = written 0 at (replicate count byte) self.old.bytes } }
    {
        fill_from(self.bytes.as_mut_slice(), at, count, byte);
        self.len = self.len.max(at + count);
    }

    /// Becomes the other, from which it differs only in these spans.
    pub fn copy_from(&mut self, other: &Image, spans: &[Span])
        requires room { length other.now.bytes ≤ self.old.room }
        requires fits { EndBy self.old.room spans.now }
        requires there { EndBy other.now.room spans.now }
        requires outside { (k : ℕ) → IsOutside spans.now k → get_or self.old.bytes k 0 ≡ get_or other.now.bytes k 0 }
        ensures { self.new ≡ record self.old { bytes = other.now.bytes } }
    {
        copy_spans(self.bytes.as_mut_slice(), other.bytes.as_slice(), spans);
        self.len = other.len;
    }
}
