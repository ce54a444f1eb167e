//! An item down, judged byte by byte.
ghost use Rattle.std.specs.Prelude.{◌≡◌, ◌+◌, Bool, List, ℕ, [], ◌∷◌, ◌++◌, false, true};
ghost use Rattle.frame_channel.specs.DownMachines.{Answers, HasTaken, IsTaking};

use crate::count_place::{CountMachine, CountPlace};
use crate::frame_machine::{FrameMachine, FrameStep};
use avl_values::Fault;
use command_layout::Way;
use field_machine::Scan;
use layout::Steps;
use std::sync::ledger::Ledger;

/// Judges the bytes of an item down one at a time, and holds none of them.
#[derive(Clone, Copy)]
pub enum DownMachine {
    /// Before the login's answer.
    Answer,
    /// In a count, or in the four zero bytes of a command's frame.
    Count(CountMachine),
    /// After these four zero bytes.
    Frame(FrameMachine),
}

/// What the bytes of an item down so far are.
#[derive(Clone, Copy)]
pub enum DownStep {
    More,
    Answer(u8),
    Count(u32),
    /// The frame of a command.
    Order,
    Broken(Fault),
}

impl DownMachine {
    /// A machine before the login's answer.
    pub fn answer() -> DownMachine
        ensures { HasTaken result false [] }
    {
        DownMachine::Answer
    }

    /// A machine before a count or a command's frame.
    pub fn count() -> DownMachine
        ensures { HasTaken result true [] }
    {
        DownMachine::Count(CountMachine::new(4, CountPlace::Count))
    }

    /// Takes the next byte, in one step. The answer is the verdict on all bytes so far; while it is More, the machine goes on.
    pub fn push<L: Ledger>(&mut self, byte: u8, steps: &mut Steps<L>) -> DownStep
        requires { IsTaking self.old }
        ensures answers { (after_answer : Bool) (bytes : List ℕ) → HasTaken self.old after_answer bytes → Answers self.new after_answer (bytes ++ byte ∷ []) result }
        ensures step { steps.new ≡ steps.old + 1 }
    {
        match self {
            DownMachine::Answer => {
                steps.tick();
                DownStep::Answer(byte)
            }
            DownMachine::Count(count) => match count.push(byte, steps) {
                Scan::More => DownStep::More,
                Scan::Whole(number) => {
                    if number > 0 {
                        return DownStep::Count(number);
                    }
                    *self = DownMachine::Frame(FrameMachine::after_zeros(Way::Down));
                    DownStep::More
                }
                Scan::Broken(found) => DownStep::Broken(found),
            },
            DownMachine::Frame(frame) => match frame.push(byte, steps) {
                FrameStep::More => DownStep::More,
                FrameStep::Whole(_) => DownStep::Order,
                FrameStep::Broken(found) => DownStep::Broken(found),
            },
        }
    }
}
