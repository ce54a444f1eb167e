ghost use Rattle.std.specs.Prelude.{◌≡◌, ◌↔◌, [], Err, IfErr, IfOk, IsOk, IsTrue, Ok, OnErr, OnOk, length};
ghost use Rattle.std.specs.List.{AllPass};
ghost use Rattle.hex.specs.Hex.{decode_of, is_hex_digit};
ghost use Rattle.capture_text.specs.Capture.{bytes_of, line_says, with_bytes};

use crate::fault::CaptureFault;
use crate::word::CaptureWord;
use avl_values::NoMemory;
use std::marker::Model;
use text_lines::split_once;

/// A line of a well-formed capture. Contracts see its number, its word and its bytes.
#[derive(Drop)]
pub struct CaptureLine<'a> {
    number: u32,
    word: CaptureWord,
    /// Two for each byte.
    digits: &'a [u8],
}

impl<'a> Model for CaptureLine<'a> {
    ghost use Rattle.std.specs.Prelude.{IsOk};
    ghost use Rattle.hex.specs.Hex.{decode_of};
    ghost use Rattle.capture_text.specs.Capture.{LineValue, bytes_of};

    ghost Value = { LineValue };

    ghost view = { λ l. record { number = l.number; word = l.word; bytes = bytes_of l.digits.now } };

    ghost invariant = { λ l. IsOk (decode_of l.digits.now) };
}

impl<'a> CaptureLine<'a> {
    pub(crate) fn new(number: u32, word: CaptureWord, digits: &'a [u8]) -> Self
        requires { IsOk (decode_of digits.now) }
        ensures { result ≡ record { number = number; word = word; bytes = bytes_of digits.entry.now } }
    {
        CaptureLine {
            number,
            word,
            digits,
        }
    }

    /// Its number in the text, from 1.
    pub fn number(&self) -> u32
        ensures { result ≡ self.now.number }
    {
        self.number
    }

    /// What its bytes are.
    pub fn word(&self) -> CaptureWord
        ensures { result ≡ self.now.word }
    {
        self.word
    }

    /// How many bytes it has.
    pub fn len(&self) -> usize
        ensures { result ≡ length self.now.bytes }
    {
        self.digits.len() / 2
    }

    /// Whether it has no bytes, as a line of a word and a space has.
    pub fn is_empty(&self) -> bool
        ensures { IsTrue result ↔ (self.now.bytes ≡ []) }
    {
        self.digits.is_empty()
    }

    /// Puts the line's bytes in place of what a buffer has. Memory is taken where the buffer has room for fewer; where that is refused, the
    /// buffer is empty.
    pub fn decode(&self, bytes: &mut Vec<u8>) -> Result<(), NoMemory>
        ensures bytes { OnOk result (bytes.new.items ≡ self.now.bytes) }
        ensures no_memory { OnErr result (bytes.new.items ≡ []) }
    {
        bytes.clear();
        bytes.resize(self.digits.len() / 2, 0)?;
        hex::decode_to_slice(self.digits, bytes.as_mut_slice()).unwrap();
        Ok(())
    }
}

/// A line's word, and the digits after its first space, which aren't judged.
pub(crate) fn split_line(line: &[u8]) -> Result<(CaptureWord, &[u8]), CaptureFault>
    ensures parts { IfOk result (λ p. line_says line.now ≡ with_bytes p.0 (decode_of p.1.now)) }
    ensures fault { IfErr result (λ fault. line_says line.now ≡ Err fault) }
{
    let Some((name, digits)) = split_once(b' ', line) else {
        return Err(match CaptureWord::from_name(line) {
            Some(_) => CaptureFault::BadHex,
            None => CaptureFault::UnknownWord,
        });
    };
    match CaptureWord::from_name(name) {
        Some(word) => Ok((word, digits)),
        None => Err(CaptureFault::UnknownWord),
    }
}

/// The fault of a line, if it has one.
pub(crate) fn judge_line(line: &[u8]) -> Result<(), CaptureFault>
    ensures sound { OnOk result (IsOk (line_says line.now)) }
    ensures fault { IfErr result (λ fault. line_says line.now ≡ Err fault) }
{
    let (_, digits) = split_line(line)?;
    if are_pairs(digits) {
        Ok(())
    } else {
        Err(CaptureFault::BadHex)
    }
}

// Whether this is an even number of digits.
fn are_pairs(digits: &[u8]) -> bool
    ensures { IsTrue result ↔ IsOk (decode_of digits.now) }
{
    digits.len() % 2 == 0 && are_digits(digits)
}

// Without an end before the last byte, so that the compiler can look at many bytes at once.
fn are_digits(text: &[u8]) -> bool
    ensures { IsTrue result ↔ AllPass is_hex_digit text.now }
{
    let mut all = true;
    for byte in text {
        all &= byte.is_ascii_hexdigit();
    }
    all
}
