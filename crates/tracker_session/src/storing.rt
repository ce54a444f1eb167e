//! A record stored in a ring that may be full.
ghost use Rattle.std.specs.Prelude.{◌≡◌, ◌^◌, false, is_err};
ghost use Rattle.avl_values.specs.Viewed.{record_of};
ghost use Rattle.record_codecs.specs.SomeRecord.{IsSomeRecord};
ghost use Rattle.tracker_session.specs.Keeping.{Keeps};

use avl_values::{MediumFault, Rec};
use flash_ring::{PutFault, Ring};
use medium_model::Medium;

/// Gives up the oldest record of a full ring, and puts the record.
pub fn store<M: Medium>(ring: &mut Ring<M>, rec: &Rec) -> Result<(), MediumFault>
    requires up { ring.old.down ≡ false }
    requires unspent { ring.old.next ≡ 2 ^ 63 → ⊥ }
    requires is_record { IsSomeRecord rec.now.codec rec.now.bytes.items }
    ensures { Keeps (record_of rec.now) (is_err result) ring.old ring.new }
{
    let _durable = ring.is_down();
    ring.make_room()?;
    match ring.put(rec) {
        Ok(()) => Ok(()),
        Err(PutFault::MediumFault) => Err(MediumFault),
        Err(PutFault::SeqSpent) => unreachable!(),
    }
}
