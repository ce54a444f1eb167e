ghost use Rattle.std.specs.Prelude.{◌≡◌, ◌≤◌, length};
ghost use Rattle.avl_values.specs.Viewed.{record_of};

use crate::Codec;
use arrayvec::ArrayVec;

/// A tracker's record: one codec, and at most 255 bytes. Its identity is the pair of both.
#[derive(Debug, Drop)]
pub struct Rec {
    /// The codec that its bytes are spelled in.
    pub codec: Codec,
    /// The bytes as they are in a data body.
    pub bytes: ArrayVec<u8, 255>,
}

impl Rec {
    /// The record of these bytes.
    pub fn new(codec: Codec, bytes: &[u8]) -> Rec
        requires { length bytes.now ≤ 255 }
        ensures { record_of result ≡ record { codec = codec; bytes = bytes.now } }
    {
        let mut copy = ArrayVec::new();
        let _added = copy.try_extend_from_slice(bytes);
        Rec { codec, bytes: copy }
    }

    /// The same record once more.
    pub fn copy(&self) -> Rec
        ensures { record_of result ≡ record_of self.now }
    {
        Rec::new(self.codec, self.bytes.as_slice())
    }
}

impl Default for Rec {
    /// No bytes in Codec 8: what an array has where no record stands yet.
    fn default() -> Rec {
        Rec {
            codec: Codec::C8,
            bytes: ArrayVec::new(),
        }
    }
}
