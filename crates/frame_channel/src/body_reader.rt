//! A frame's body while its bytes come.
ghost use Rattle.std.specs.Prelude.{◌≡◌, ◌<◌, ◌+◌, ℕ, List, [], ◌∷◌, ◌++◌};
ghost use Rattle.crc_field.specs.Crc.{crc_of};
ghost use Rattle.frame_channel.specs.BodyMachines.{HasTaken};

use crate::body_place::{BodyMachine, BodyPlace, BodyScan};
use avl_values::Fault;
use command_layout::Way;
use crc_field::Running;
use frame_layout::BodyKind;
use layout::Steps;
use std::sync::ledger::Ledger;

/// A body of a known length, of which some bytes were taken.
#[derive(Clone, Copy)]
pub struct BodyReader {
    /// The place of its first byte in the frame.
    start: u32,
    /// Its length in bytes.
    total: u32,
    machine: BodyMachine,
    /// The checksum of the bytes that were taken.
    crc: Running,
}

/// What a byte of a body brings.
#[derive(Clone, Copy)]
pub enum BodyStep {
    /// Fewer bytes than the body.
    More,
    /// The body is whole, is of this kind, has this checksum and ends before this place.
    Whole(BodyKind, u16, u32),
    Broken(Fault),
}

impl BodyReader {
    ghost use Rattle.command_layout.specs.declared.way.Way.{Way};
    ghost use Rattle.frame_channel.specs.Bodies.{BodyAnswers, InBody, IsInBody};

    /// A body that passes this way, of which no byte is there.
    pub fn new(start: u32, total: u32, way: Way) -> BodyReader
        requires { 0 < total }
        ensures start { result.start ≡ start }
        ensures total { result.total ≡ total }
        ensures taken { HasTaken result.machine way total [] }
        ensures crc { result.crc ≡ crc_of [] }
    {
        BodyReader {
            start,
            total,
            machine: BodyMachine::new(total, BodyPlace::Codec(way, total)),
            crc: Running::new(),
        }
    }

    /// Takes the next byte, in one step. The answer is the verdict on all bytes of the frame so far, or what is left of it
    /// after the body.
    pub fn push<L: Ledger>(&mut self, byte: u8, steps: &mut Steps<L>) -> BodyStep
        requires { IsInBody self.old }
        ensures answers { (way : Way) (bytes : List ℕ) → InBody way self.old bytes → BodyAnswers way self.new (bytes ++ byte ∷ []) result }
        ensures step { steps.new ≡ steps.old + 1 }
    {
        self.crc.push(byte);
        match self.machine.push(byte, steps) {
            BodyScan::More => BodyStep::More,
            BodyScan::Whole(kind) => {
                BodyStep::Whole(kind, self.crc.value(), self.start + self.total)
            }
            BodyScan::Broken(found) => BodyStep::Broken(Fault {
                kind: found.kind,
                place: self.start + found.place,
            }),
        }
    }
}
