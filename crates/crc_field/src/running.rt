ghost use Rattle.std.specs.Prelude.{◌≡◌, ◌++◌, [], ◌∷◌, List, ℕ};
ghost use Rattle.crc_field.specs.Crc.{after_bit, after_bits, after_byte, crc_of};

use crate::table::TABLE;
use std::marker::Model;

/// The checksum of the bytes so far, seen as its word of 16 bits.
#[derive(Clone, Copy, Debug, PartialEq, Eq)]
pub struct Running {
    word: u16,
}

impl Model for Running {
    ghost use Rattle.std.specs.Prelude.{ℕ, ◌<◌, ◌^◌};

    ghost Value = { ℕ };

    ghost view = { λ r. r.word };

    ghost inverse = { λ n. record { word = n } };
}

impl Running {
    /// The checksum of no bytes.
    pub fn new() -> Running
        ensures { result ≡ crc_of [] }
    {
        Running { word: 0 }
    }

    /// Takes one more byte.
    pub fn push(&mut self, byte: u8)
        ensures word { self.new ≡ after_byte self.old byte }
        ensures pushed { (bytes : List ℕ) → self.old ≡ crc_of bytes → self.new ≡ crc_of (bytes ++ byte ∷ []) }
    {
        self.word = next(self.word, byte);
    }

    /// The checksum of the bytes that were pushed.
    pub fn value(&self) -> u16
        ensures { result ≡ self.now }
    {
        self.word
    }
}

// The word after a byte, eight bits at once.
fn next(word: u16, byte: u8) -> u16
    ensures { result ≡ after_byte word byte }
{
    let low = ((word ^ byte as u16) % 256) as u8;
    (word >> 8) ^ looked_up(low)
}

// What eight bits that go out of a low half leave.
fn looked_up(low: u8) -> u16
    ensures { result ≡ after_bits 8 low }
{
    TABLE[low as usize]
}

/// The checksum of some bytes: polynomial 0x8005 from the lowest bit on, first word 0, nothing done at the end
/// (Teltonika, Data Sending Protocols, "CRC-16").
pub fn crc(bytes: &[u8]) -> u16
    ensures { result ≡ crc_of bytes.now }
{
    let mut running = Running::new();
    for byte in bytes {
        running.push(*byte);
    }
    running.value()
}
