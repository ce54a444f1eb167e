ghost use Rattle.std.specs.Prelude.{◌≡◌, ◌↔◌, ◌≤◌, ◌<◌, ◌^◌, ◌+◌, ◌++◌, length, replicate, slice_index, Some, IfOk, IfSome, IfNone, OnOk, OnErr};
ghost use Rattle.avl_values.specs.Codec.{codec_of};
ghost use Rattle.avl_values.specs.Viewed.{record_of};
ghost use Rattle.record_codecs.specs.SomeRecord.{IsSomeRecord};
ghost use Rattle.flash_ring.specs.Held.{IsSoundHeld};
ghost use Rattle.flash_ring.specs.Slot.{HoldsSound, IsSoundSlot, body_of, fields_of, slot_of};

use arrayvec::ArrayVec;
use avl_values::{Codec, Rec};
use medium_model::OPEN;
use record_codecs::is_record;
use std::marker::Model;

/// Bytes of a slot.
pub const SLOT_BYTES: usize = 272;

const ZEROS: [u8; 261] = [0; 261];

/// What a slot holds: a record, and the sequence under which it was stored.
#[derive(Drop)]
pub struct Held {
    /// The sequence under which it was stored.
    pub seq: u64,
    /// The record.
    pub rec: Rec,
}

impl Model for Held {
    ghost use Rattle.avl_values.specs.Viewed.{record_of};
    ghost use Rattle.flash_ring.specs.Held.{Held as HeldValue};

    ghost Value = { HeldValue };

    ghost view = { λ h. record { seq = h.seq; rec = record_of h.rec } };
}

impl Held {
    /// A record under a sequence.
    pub fn new(seq: u64, rec: &Rec) -> Held
        ensures value { result ≡ record { seq = seq; rec = record_of rec.now } }
        ensures few { length rec.now.bytes.items ≤ 255 }
    {
        Held {
            seq,
            rec: Rec::new(rec.codec, rec.bytes.as_slice()),
        }
    }

    /// The slot's bytes after its gate.
    pub fn body(&self) -> ArrayVec<u8, 271>
        ensures bytes { result.items ≡ body_of self.now }
        ensures fits { length self.now.rec.bytes ≤ 255 }
        ensures seq { self.now.seq < 2 ^ 64 }
    {
        let record = self.rec.bytes.as_slice();
        let mut body = ArrayVec::new();
        body.push(self.rec.codec.id());
        body.push(record.len() as u8);
        append(&mut body, &self.seq.to_be_bytes());
        append(&mut body, record);
        append_zeros(&mut body, 261 - record.len());
        body
    }
}

fn append(body: &mut ArrayVec<u8, 271>, bytes: &[u8])
    requires { length body.old.items + length bytes.now ≤ 271 }
    ensures { body.new.items ≡ body.old.items ++ bytes.now }
{
    let _fits = body.try_extend_from_slice(bytes);
}

fn append_zeros(body: &mut ArrayVec<u8, 271>, count: usize)
    requires few { count ≤ 261 }
    requires fits { length body.old.items + count ≤ 271 }
    ensures { body.new.items ≡ body.old.items ++ replicate count 0 }
{
    append(body, &ZEROS[..count]);
}

/// A slot's gate is open, and its fields aren't a record.
#[derive(Clone, Copy, Debug, PartialEq, Eq)]
pub struct Unsound;

/// What a whole slot's bytes hold.
pub fn read_slot(bytes: &[u8]) -> Result<Option<Held>, Unsound>
    requires whole { length bytes.now ≡ 272 }
    ensures holds { IfOk result (λ held. held ≡ slot_of bytes.now) }
    ensures sound { OnOk result (IsSoundSlot bytes.now) }
    ensures unsound { OnErr result (IsSoundSlot bytes.now → ⊥) }
{
    if bytes[0] != OPEN {
        return Ok(None);
    }
    match read_fields(bytes) {
        Some(held) => Ok(Some(held)),
        None => Err(Unsound),
    }
}

// The record after an open gate, where it is sound.
fn read_fields(bytes: &[u8]) -> Option<Held>
    requires whole { length bytes.now ≡ 272 }
    ensures some { IfSome result (λ held. fields_of bytes.now (codec_of (slice_index bytes.now 1)) ≡ Some held) }
    ensures sound { IfSome result IsSoundHeld }
    ensures none { IfNone result (HoldsSound (fields_of bytes.now (codec_of (slice_index bytes.now 1))) → ⊥) }
{
    let codec = Codec::from_id(bytes[1])?;
    let mut seq = [0; 8];
    seq.copy_from_slice(&bytes[3..11]);
    let seq = u64::from_be_bytes(seq);
    let record = &bytes[11..11 + bytes[2] as usize];
    if seq >= 1 << 63 || !is_record(codec, record) {
        return None;
    }
    Some(Held {
        seq,
        rec: Rec::new(codec, record),
    })
}
