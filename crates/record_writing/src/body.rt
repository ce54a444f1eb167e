ghost use Rattle.std.specs.Prelude.{◌≡◌, ◌<◌, ◌↔◌, [], ◌∷◌, ◌++◌, length, IsTrue};
ghost use Rattle.std.specs.Bool.{OnFalse, OnTrue};
ghost use Rattle.record_layout.specs.Packet.{IsPacket};
ghost use Rattle.record_layout.specs.SomeRecord.{IsSomeRecord};
ghost use Rattle.record_writing.specs.Room.{HasRoomFor};

use arrayvec::ArrayVec;
use avl_values::Codec;
use layout::put_all;
use std::marker::Model;

/// A tracker's data body while it is made, seen as its codec and its records so far (Teltonika, Data Sending Protocols, data
/// field). It has at most 255 records, and that it has at most 1,268 bytes is this project's own limit.
#[derive(Drop)]
pub struct Body {
    codec: Codec,
    count: u8,
    bytes: ArrayVec<u8, 1265>,
}

impl Model for Body {
    ghost use Rattle.std.specs.Prelude.{◌≡◌, length};
    ghost use Rattle.record_writing.specs.Packing.{Packing};
    ghost use Rattle.record_writing.specs.Packed.{ArePacked};
    ghost use Rattle.record_layout.specs.RecordsOf.{records_in};

    ghost Value = { Packing };

    ghost view = { λ b. record { codec = b.codec; records = records_in b.codec b.count b.bytes.items } };

    ghost invariant = { λ b. ArePacked b.codec b.count b.bytes.items };
}

impl Body {
    /// A body without records.
    pub fn begin(codec: Codec) -> Body
        ensures { result ≡ record { codec = codec; records = [] } }
    {
        Body {
            codec,
            count: 0,
            bytes: ArrayVec::new(),
        }
    }

    /// Adds a record of the body's codec at the end; false, with nothing changed, exactly where it would be the 256th record or
    /// the whole body, with its last byte, would have more than 1,268 bytes.
    #[tactic(auto, using(crate::proofs::Bodies::one_more, crate::proofs::Bodies::body_length, crate::proofs::Bodies::how_many))]
    pub fn push(&mut self, bytes: &[u8]) -> bool
        requires { IsSomeRecord self.old.codec bytes.now }
        ensures room { IsTrue result ↔ HasRoomFor self.old bytes.now }
        ensures added { OnTrue result (self.new ≡ record self.old { records = self.old.records ++ bytes.now ∷ [] }) }
        ensures unchanged { OnFalse result (self.new ≡ self.old) }
    {
        if self.count == 255 {
            return false;
        }
        if self.bytes.try_extend_from_slice(bytes).is_err() {
            return false;
        }
        self.count += 1;
        true
    }

    /// The whole data body.
    pub fn finish(self) -> ArrayVec<u8, 1268>
        requires { 0 < length self.records }
        ensures { IsPacket self.codec self.records result.items }
    {
        let mut out = ArrayVec::new();
        out.push(self.codec.id());
        out.push(self.count);
        put_all(&mut out, self.bytes.as_slice());
        out.push(self.count);
        out
    }
}
