ghost use Rattle.std.specs.Prelude.{◌≡◌, ◌↔◌, IsTrue};
ghost use Rattle.record_codecs.specs.SomeRecord.{IsSomeRecord};
ghost use Rattle.shelf.specs.Archive.{stored};

use avl_values::{Codec, Imei, WideRec};
use std::marker::Model;

/// A record of a device in an archive.
#[derive(Debug, Drop)]
pub struct Stored {
    imei: Imei,
    rec: WideRec,
}

impl Model for Stored {
    ghost use Rattle.shelf.specs.Archive.{StoredValue};
    ghost use Rattle.record_codecs.specs.SomeRecord.{IsSomeRecord};

    ghost Value = { StoredValue };

    ghost view = { λ s. record { imei = s.imei; rec = s.rec } };

    ghost invariant = { λ s. IsSomeRecord s.rec.codec s.rec.bytes };
}

impl Stored {
    /// The record of a device.
    pub(crate) fn new(imei: Imei, rec: WideRec) -> Stored
        requires { IsSomeRecord rec.codec rec.bytes }
        ensures { result ≡ record { imei = imei; rec = rec } }
    {
        Stored { imei, rec }
    }

    /// Whether it is this record of this device.
    pub(crate) fn is(&self, imei: Imei, codec: Codec, bytes: &[u8]) -> bool
        ensures { IsTrue result ↔ (self.now ≡ stored imei (record { codec = codec; bytes = bytes.now })) }
    {
        self.imei == imei && self.rec.codec() == codec && self.rec.bytes() == bytes
    }

    /// The device.
    pub fn imei(&self) -> Imei
        ensures { result ≡ self.now.imei }
    {
        self.imei
    }

    /// The record, one whole record of its codec.
    pub fn rec(&self) -> &WideRec
        ensures value { result.now ≡ self.now.rec }
        ensures is_record { IsSomeRecord result.now.codec result.now.bytes }
    {
        &self.rec
    }
}
