//! What one record says.
ghost use Rattle.std.specs.Prelude.{◌≡◌, ◌<◌, ◌↔◌, ℕ, IsSome, take, drop};
ghost use Rattle.avl_values.specs.declared.codec.Codec.TheVariants.{C16};
ghost use Rattle.avl_values.specs.RecordValue.{RecordValue};
ghost use Rattle.avl_values.specs.Width.{bytes_of, limit};
ghost use Rattle.layout.specs.Fields.{number as number_of};
ghost use Rattle.record_codecs.specs.Elements.{ios_of};
ghost use Rattle.record_codecs.specs.Views.{ios_left, nx_left};
ghost use Rattle.record_codecs.specs.Shown.{Shows, codec_of, elements_from, generation_of, gps_of, viewed};

use crate::elements::{Ios, Nxs, after_groups, split_front, split_number};
use avl_values::{Codec, Gps, Width};
use record_layout::id_width;

/// A record in a codec, read in place. What it returns is the record's value where its bytes are one record (`is_record`); of
/// other bytes the answers are of no use.
#[derive(Clone, Copy)]
pub struct RecordView<'a> {
    codec: Codec,
    bytes: &'a [u8],
}

/// The number at a place.
fn number_at(bytes: &[u8], place: usize, width: Width) -> u64
    ensures value { result ≡ number_of (take (bytes_of width) (drop place bytes.now)) }
    ensures fits { result < limit width }
{
    split_number(split_front(bytes, place).1, width).0
}

/// The bytes from the groups of elements on.
fn elements(codec: Codec, bytes: &[u8]) -> &[u8]
    ensures { result.now ≡ drop (elements_from codec) bytes.now }
{
    let place = match codec {
        Codec::C8 => 26,
        Codec::C8E | Codec::C16 => 28,
    };
    split_front(bytes, place).1
}

impl<'a> RecordView<'a> {
    /// A record of these bytes.
    pub(crate) fn new(codec: Codec, bytes: &'a [u8]) -> RecordView<'a>
        ensures codec { codec_of result ≡ codec }
        ensures bytes { viewed result ≡ bytes.now }
    {
        RecordView { codec, bytes }
    }

    /// Milliseconds since 1970 UTC.
    pub fn time(&self) -> u64
        ensures { (v : RecordValue) → Shows self.now v → result ≡ v.time }
    {
        number_at(self.bytes, 0, Width::W8)
    }

    /// 0 low, 1 high, 2 panic.
    pub fn priority(&self) -> u8
        ensures { (v : RecordValue) → Shows self.now v → result ≡ v.priority }
    {
        number_at(self.bytes, 8, Width::W1) as u8
    }

    /// Where the vehicle was.
    pub fn gps(&self) -> Gps
        ensures { (v : RecordValue) → Shows self.now v → result ≡ gps_of v }
    {
        Gps {
            longitude: (number_at(self.bytes, 9, Width::W4) as u32).cast_signed(),
            latitude: (number_at(self.bytes, 13, Width::W4) as u32).cast_signed(),
            altitude: (number_at(self.bytes, 17, Width::W2) as u16).cast_signed(),
            angle: number_at(self.bytes, 19, Width::W2) as u16,
            satellites: number_at(self.bytes, 21, Width::W1) as u8,
            speed: number_at(self.bytes, 22, Width::W2) as u16,
        }
    }

    /// The id of the I/O element that made the record, 0 where none did.
    pub fn event(&self) -> u16
        ensures { (v : RecordValue) → Shows self.now v → result ≡ v.event }
    {
        number_at(self.bytes, 24, id_width(self.codec)) as u16
    }

    /// What made the record, which only Codec 16 says.
    pub fn generation(&self) -> Option<u8>
        ensures says { (v : RecordValue) → Shows self.now v → result ≡ generation_of self.now v }
        ensures some { IsSome result ↔ (codec_of self.now ≡ C16) }
    {
        match self.codec {
            Codec::C16 => Some(number_at(self.bytes, 26, Width::W1) as u8),
            Codec::C8 | Codec::C8E => None,
        }
    }

    /// The elements of 1, 2, 4 and 8 bytes, in the record's order.
    pub fn ios(&self) -> Ios<'a>
        ensures { (v : RecordValue) → Shows self.now v → ios_left result ≡ ios_of v }
    {
        Ios::new(self.codec, elements(self.codec, self.bytes))
    }

    /// The elements of any length, in the record's order: ids, and bytes as slices of the record.
    pub fn nx(&self) -> Nxs<'a>
        ensures { (v : RecordValue) → Shows self.now v → nx_left result ≡ v.nx }
    {
        Nxs::new(
            self.codec,
            after_groups(self.codec, elements(self.codec, self.bytes)),
        )
    }
}
