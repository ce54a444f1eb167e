ghost use Rattle.std.specs.Prelude.{◌≡◌};
ghost use Rattle.crc_field.specs.Crc.{after_bit, after_byte, crc_of};

use super::*;
use std::test::Fail;

fn after_one_bit(word: u16) -> u16
    ensures { result ≡ after_bit word }
{
    if word % 2 == 1 {
        (word / 2) ^ 0xa001
    } else {
        word / 2
    }
}

// The definition's own program, bit by bit.
fn bit_by_bit(bytes: &[u8]) -> u16 {
    let mut word: u16 = 0;
    for byte in bytes {
        word ^= *byte as u16;
        for _ in 0..8 {
            word = after_one_bit(word);
        }
    }
    word
}

#[test]
fn known_checksums(rt: HostRuntime) -> Result<(), Fail> {
    let codec_8: [u8; 54] = [
        0x08, 0x01, 0x00, 0x00, 0x01, 0x6b, 0x40, 0xd8, 0xea, 0x30, 0x01, 0x00, 0x00, 0x00, 0x00,
        0x00, 0x00, 0x00, 0x00, 0x00, 0x00, 0x00, 0x00, 0x00, 0x00, 0x00, 0x01, 0x05, 0x02, 0x15,
        0x03, 0x01, 0x01, 0x01, 0x42, 0x5e, 0x0f, 0x01, 0xf1, 0x00, 0x00, 0x60, 0x1a, 0x01, 0x4e,
        0x00, 0x00, 0x00, 0x00, 0x00, 0x00, 0x00, 0x00, 0x01,
    ];
    assert_eq!(rt; crc(b""), 0);
    assert_eq!(rt; crc(b"123456789"), 0xbb3d);
    assert_eq!(rt; crc(&codec_8), 0xc7cf);
    assert_eq!(rt; bit_by_bit(b"123456789"), 0xbb3d);
    assert_eq!(rt; bit_by_bit(&codec_8), 0xc7cf);
    Ok(())
}
