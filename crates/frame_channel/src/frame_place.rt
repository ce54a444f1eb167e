//! Where in the fields around a frame's body the next one stands.
ghost use Rattle.std.specs.Prelude.{◌≡◌, ℕ, List};
ghost use Rattle.layout.specs.Fields.{number as number_of};
ghost use Rattle.field_machine.specs.Places.{Follows};
ghost use Rattle.frame_layout.specs.FrameBodies.{longest_body as most_of};
ghost use Rattle.frame_channel.specs.FramePlaces.{SaysPart, StandsInFrame, frame_leaves, frame_left, head_rows, high_rows, length_head, low_rows};
ghost use Rattle.frame_channel.specs.declared.frame_place.FramePart.{FramePart};

use avl_values::FaultKind;
use command_layout::Way;
use field_machine::{Cursor, Left, Machine, Place};
use frame_layout::BodyKind;

/// What a part of a frame says.
#[derive(Clone, Copy)]
pub enum FramePart {
    /// Before the body: its length in bytes.
    Body(u32),
    /// After the body: that the frame of a body of this kind is whole.
    Whole(BodyKind),
}

/// The next field before the body of a frame, or after it.
#[derive(Clone, Copy)]
pub enum FramePlace {
    /// The four zero bytes of a frame of this way.
    Preamble(Way),
    /// The length of the body.
    Length(Way),
    /// The high half of the checksum's field after a body of this kind with this checksum.
    CrcHigh(BodyKind, u16),
    /// The low half.
    CrcLow(BodyKind, u16),
    /// The part's end.
    End(FramePart),
}

/// Judges the bytes before a frame's body, or those after it, one at a time.
pub type PartMachine = Machine<FramePlace>;

/// The most bytes of a body of this way.
fn longest_body(way: Way) -> u64
    ensures { result ≡ most_of way }
{
    match way {
        Way::Up => 65_535,
        Way::Down => 1_268,
    }
}

fn preamble(way: Way, value: u64) -> Result<FramePlace, FaultKind>
    ensures { (field : List ℕ) → number_of field ≡ value → Follows StandsInFrame (head_rows way) field result }
{
    if value == 0 {
        Ok(FramePlace::Length(way))
    } else {
        Err(FaultKind::Preamble)
    }
}

fn length(way: Way, value: u64) -> Result<FramePlace, FaultKind>
    ensures { (field : List ℕ) → number_of field ≡ value → Follows StandsInFrame (length_head way) field result }
{
    if value >= 3 && value <= longest_body(way) {
        Ok(FramePlace::End(FramePart::Body(value as u32)))
    } else {
        Err(FaultKind::Length)
    }
}

fn crc_high(kind: BodyKind, crc: u16, value: u64) -> Result<FramePlace, FaultKind>
    ensures { (field : List ℕ) → number_of field ≡ value → Follows StandsInFrame (high_rows kind crc) field result }
{
    if value == 0 {
        Ok(FramePlace::CrcLow(kind, crc))
    } else {
        Err(FaultKind::CrcHigh)
    }
}

fn crc_low(kind: BodyKind, crc: u16, value: u64) -> Result<FramePlace, FaultKind>
    ensures { (field : List ℕ) → number_of field ≡ value → Follows StandsInFrame (low_rows kind crc) field result }
{
    if value == u64::from(crc) {
        Ok(FramePlace::End(FramePart::Whole(kind)))
    } else {
        Err(FaultKind::CrcMismatch)
    }
}

impl Place for FramePlace {
    type Head = FramePart;

    ghost Value = { FramePart };

    ghost says = { SaysPart };

    ghost left_of = { frame_left };

    ghost stands = { StandsInFrame };

    ghost leaves = { frame_leaves };

    fn left(self) -> Left<FramePart> {
        match self {
            FramePlace::Preamble(_) | FramePlace::Length(_) => Left::Field(4),
            FramePlace::CrcHigh(..) | FramePlace::CrcLow(..) => Left::Field(2),
            FramePlace::End(part) => Left::Nothing(part),
        }
    }
}

impl Cursor for FramePlace {
    fn next(self, value: u64) -> Result<FramePlace, FaultKind> {
        match self {
            FramePlace::Preamble(way) => preamble(way, value),
            FramePlace::Length(way) => length(way, value),
            FramePlace::CrcHigh(kind, crc) => crc_high(kind, crc, value),
            FramePlace::CrcLow(kind, crc) => crc_low(kind, crc, value),
            FramePlace::End(_) => Ok(self),
        }
    }
}
