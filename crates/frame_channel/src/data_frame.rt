//! A data frame that is whole in some bytes.
ghost use Rattle.std.specs.Prelude.{◌≡◌, ◌∷◌, take, IfSome, IsTrue};
ghost use Rattle.std.specs.Int.{to_be_bytes, w16, w32};
ghost use Rattle.frame_channel.specs.DataFrames.{BeginsWith, BeginsWithBody};

use crc_field::crc;
use record_codecs::{PacketHead, read_packet};

/// The frame of a data body: what the body says first, and the body.
#[derive(Clone, Copy)]
pub struct DataFrame<'a> {
    pub head: PacketHead,
    pub body: &'a [u8],
}

// The eight bytes of a frame before a body of this length.
fn front_of(length: u32) -> [u8; 8]
    ensures { result ≡ 0 ∷ 0 ∷ 0 ∷ 0 ∷ to_be_bytes w32 length }
{
    let [a, b, c, d] = length.to_be_bytes();
    [0, 0, 0, 0, a, b, c, d]
}

// The four bytes of a frame after a body of this checksum.
fn end_of(crc: u16) -> [u8; 4]
    ensures { result ≡ 0 ∷ 0 ∷ to_be_bytes w16 crc }
{
    let [high, low] = crc.to_be_bytes();
    [0, 0, high, low]
}

// Whether a frame's bytes before a body of this length begin these.
fn tells(length: u32, bytes: &[u8]) -> bool
    ensures { IsTrue result → take 8 bytes.now ≡ 0 ∷ 0 ∷ 0 ∷ 0 ∷ to_be_bytes w32 length }
{
    bytes.starts_with(&front_of(length))
}

// Whether a frame's bytes after a body of this checksum begin these.
fn ends(crc: u16, behind: &[u8]) -> bool
    ensures { IsTrue result → take 4 behind.now ≡ 0 ∷ 0 ∷ to_be_bytes w16 crc }
{
    behind.starts_with(&end_of(crc))
}

// The body of a frame, and what follows it, where all of the body is there.
fn split(bytes: &[u8]) -> Option<(&[u8], &[u8])>
    ensures { IfSome result (λ parts. BeginsWithBody parts.0.now parts.1.now bytes.now) }
{
    if bytes.len() < 8 {
        return None;
    }
    let length = u32::from_be_bytes([bytes[4], bytes[5], bytes[6], bytes[7]]);
    let (_, rest) = bytes.split_at(8);
    if length > 65_535 || rest.len() < length as usize || !tells(length, bytes) {
        return None;
    }
    Some(rest.split_at(length as usize))
}

/// The data frame that is whole at the front of these bytes, where there is one. Otherwise there is a part of one, another item or
/// a fault. Of another item no more than its first bytes are looked at.
pub fn data_frame(bytes: &[u8]) -> Option<DataFrame<'_>>
    ensures { IfSome result (λ frame. BeginsWith frame.head frame.body.now bytes.now) }
{
    let (body, behind) = split(bytes)?;
    match read_packet(body) {
        Ok(head) if ends(crc(body), behind) => Some(DataFrame { head, body }),
        _ => None,
    }
}
