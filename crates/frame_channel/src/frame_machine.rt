//! A frame, judged byte by byte. Both ways have the same frames, with other bodies.
ghost use Rattle.std.specs.Prelude.{◌≡◌, ◌+◌, ◌<◌, ◌^◌, ℕ, List, [], ◌∷◌, ◌++◌, length};
ghost use Rattle.layout.specs.Fields.{number};
ghost use Rattle.avl_values.specs.declared.fault.Fault.{Fault};
ghost use Rattle.command_layout.specs.declared.way.Way.{Way};
ghost use Rattle.frame_channel.specs.FrameMachines.{Answers, HasTaken, IsTaking};

use crate::body_reader::{BodyReader, BodyStep};
use crate::frame_place::{FramePart, FramePlace, PartMachine};
use avl_values::Fault;
use command_layout::Way;
use field_machine::Scan;
use frame_layout::BodyKind;
use layout::Steps;
use std::sync::ledger::Ledger;

/// Judges the bytes of a frame one at a time, and holds none of them.
#[derive(Clone, Copy)]
pub enum FrameMachine {
    /// In the fields before the body of a frame of this way, or in those after it. They begin at this place.
    Fields(Way, u32, PartMachine),
    /// In the body of a frame of this way.
    Body(Way, BodyReader),
}

/// What the bytes of a frame so far are.
#[derive(Clone, Copy)]
pub enum FrameStep {
    /// Fewer bytes than a frame.
    More,
    /// A frame of a body of this kind.
    Whole(BodyKind),
    /// No frame begins with these bytes. The fault's place is counted from the frame's first byte.
    Broken(Fault),
}

/// A fault of a part of a frame that begins at this place.
fn in_frame(start: u32, found: Fault) -> Fault
    requires { start + found.place < 2 ^ 32 }
    ensures { result ≡ record { kind = found.kind; place = start + found.place } }
{
    Fault {
        kind: found.kind,
        place: start + found.place,
    }
}

impl FrameMachine {
    /// A machine before a frame of this way.
    pub fn new(way: Way) -> FrameMachine
        ensures { HasTaken result way [] }
    {
        FrameMachine::Fields(way, 0, PartMachine::new(8, FramePlace::Preamble(way)))
    }

    /// A machine after the four zero bytes of a frame of this way.
    pub fn after_zeros(way: Way) -> FrameMachine
        ensures { (zeros : List ℕ) → length zeros ≡ 4 → number zeros ≡ 0 → HasTaken result way zeros }
    {
        FrameMachine::Fields(way, 4, PartMachine::new(4, FramePlace::Length(way)))
    }

    /// Takes the next byte, in one step. The answer is the verdict on all bytes so far; while it is More, the machine goes on.
    pub fn push<L: Ledger>(&mut self, byte: u8, steps: &mut Steps<L>) -> FrameStep
        requires { IsTaking self.old }
        ensures answers { (way : Way) (bytes : List ℕ) → HasTaken self.old way bytes → Answers self.new way (bytes ++ byte ∷ []) result }
        ensures step { steps.new ≡ steps.old + 1 }
    {
        match self {
            FrameMachine::Fields(way, start, fields) => match fields.push(byte, steps) {
                Scan::More => FrameStep::More,
                Scan::Whole(FramePart::Body(total)) => {
                    let body = BodyReader::new(*start + fields.taken(), total, *way);
                    *self = FrameMachine::Body(*way, body);
                    FrameStep::More
                }
                Scan::Whole(FramePart::Whole(kind)) => FrameStep::Whole(kind),
                Scan::Broken(found) => FrameStep::Broken(in_frame(*start, found)),
            },
            FrameMachine::Body(way, reader) => match reader.push(byte, steps) {
                BodyStep::More => FrameStep::More,
                BodyStep::Whole(kind, crc, end) => {
                    let check = PartMachine::new(4, FramePlace::CrcHigh(kind, crc));
                    *self = FrameMachine::Fields(*way, end, check);
                    FrameStep::More
                }
                BodyStep::Broken(found) => FrameStep::Broken(found),
            },
        }
    }
}
