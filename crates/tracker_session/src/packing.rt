//! The records of a batch as a data body.
ghost use Rattle.std.specs.Prelude.{◌≡◌, ◌<◌, [], false, length, IfSome};
ghost use Rattle.avl_values.specs.Record.{Record};
ghost use Rattle.flash_ring.specs.Held.{rec_at};
ghost use Rattle.flash_ring.specs.Records.{recs_in};
ghost use Rattle.tracker_session.specs.Batches.{frame_in};
ghost use Rattle.tracker_session.specs.Packs.{AreBatch, CanAdd, IsBodyOf, with_bytes};

use arrayvec::ArrayVec;
use avl_values::Codec;
use flash_ring::Ring;
use frame_channel::write_frame;
use medium_model::Medium;
use record_writing::Body;

/// The codec of an open slot's record.
fn codec_of<M: Medium>(ring: &Ring<M>, slot: u16) -> Codec
    requires up { ring.now.down ≡ false }
    requires opened { rec_at ring.now.slots slot ≡ None → ⊥ }
    ensures { IfSome (rec_at ring.now.slots slot) (λ r. result ≡ r.codec) }
{
    match ring.rec_at(slot) {
        Some(rec) => rec.codec,
        None => unreachable!(),
    }
}

/// Adds the record of an open slot.
fn add<M: Medium>(body: &mut Body, ring: &Ring<M>, slot: u16)
    requires up { ring.now.down ≡ false }
    requires fits { CanAdd body.old ring.now.slots slot }
    ensures { body.new ≡ with_bytes (rec_at ring.now.slots slot) body.old }
{
    match ring.rec_at(slot) {
        Some(rec) => {
            let _added = body.push(&rec.bytes);
        }
        None => unreachable!(),
    }
}

/// The data body of a batch.
fn pack<M: Medium>(ring: &Ring<M>, slots: &[u16]) -> ArrayVec<u8, 1268>
    requires up { ring.now.down ≡ false }
    requires some { 0 < length slots.now }
    requires batch { AreBatch ring.now.slots slots.now }
    ensures { IsBodyOf (recs_in ring.now.slots slots.now) result.items }
{
    let codec = codec_of(ring, slots[0]);
    let mut body = Body::begin(codec);
    for slot in slots {
        add(&mut body, ring, *slot);
    }
    body.finish()
}

/// The frame of a batch, over what was in `out`, and nothing of none.
pub fn write_batch<M: Medium>(ring: &Ring<M>, slots: &[u16], out: &mut ArrayVec<u8, 1280>)
    requires up { ring.now.down ≡ false }
    requires batch { AreBatch ring.now.slots slots.now }
    ensures { out.new.items ≡ frame_in ring.now.slots slots.now }
{
    if slots.is_empty() {
        out.clear();
        return;
    }
    let body = pack(ring, slots);
    write_frame(&body, out);
}
