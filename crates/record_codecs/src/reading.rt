//! What a data body and a record say.
ghost use Rattle.std.specs.Prelude.{◌≡◌, List, ℕ, map};
ghost use Rattle.avl_values.specs.declared.codec.Codec.{Codec as CodecOf};
ghost use Rattle.record_layout.specs.Packet.{IsPacket};
ghost use Rattle.record_layout.specs.RecordsOf.{records_of};
ghost use Rattle.avl_values.specs.RecordValue.{RecordValue};
ghost use Rattle.record_layout.specs.Spelling.{IsRecord};
ghost use Rattle.record_codecs.specs.Shown.{Shows, viewed, codec_of};
ghost use Rattle.record_codecs.specs.Views.{records_left};

use crate::record_iter::Records;
use crate::record_view::RecordView;
use avl_values::Codec;

/// The records of a body that `read_packet` accepts, in its order. Of other bytes the slices are of no use.
pub fn records(body: &[u8]) -> Records<'_>
    ensures read { records_left result ≡ map (λ r. r.bytes) (records_of body.now) }
    ensures packet { (codec : CodecOf) (rs : List (List ℕ)) → IsPacket codec rs body.now → records_left result ≡ rs }
{
    match body {
        [id, count, rest @ ..] => match Codec::from_id(*id) {
            Some(codec) => Records::new(codec, *count, rest),
            None => Records::new(Codec::C8, 0, rest),
        },
        _ => Records::new(Codec::C8, 0, body),
    }
}

/// One record, read in place. What the view returns is the record's value where `is_record` holds of the bytes.
pub fn view(codec: Codec, bytes: &[u8]) -> RecordView<'_>
    ensures codec { codec_of result ≡ codec }
    ensures bytes { viewed result ≡ bytes.now }
    ensures shows { (v : RecordValue) → IsRecord codec v bytes.now → Shows result v }
{
    RecordView::new(codec, bytes)
}
