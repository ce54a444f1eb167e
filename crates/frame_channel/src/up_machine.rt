//! An item up, judged byte by byte.
ghost use Rattle.std.specs.Prelude.{◌≡◌, ◌+◌, Bool, List, ℕ, [], ◌∷◌, ◌++◌, false, true};
ghost use Rattle.frame_channel.specs.UpMachines.{Answers, HasTaken, IsTaking};

use crate::frame_machine::{FrameMachine, FrameStep};
use crate::login_place::{LoginMachine, LoginPlace};
use avl_values::{Fault, Imei};
use command_layout::Way;
use field_machine::Scan;
use frame_layout::BodyKind;
use layout::Steps;
use std::sync::ledger::Ledger;

/// Judges the bytes of an item up one at a time, and holds none of them.
#[derive(Clone, Copy)]
pub enum UpMachine {
    Login(LoginMachine),
    Frame(FrameMachine),
}

/// What the bytes of an item up so far are.
#[derive(Clone, Copy)]
pub enum UpStep {
    More,
    Login(Imei),
    /// A frame of a body of this kind.
    Frame(BodyKind),
    Broken(Fault),
}

impl UpMachine {
    /// A machine before a login.
    pub fn login() -> UpMachine
        ensures { HasTaken result false [] }
    {
        UpMachine::Login(LoginMachine::new(17, LoginPlace::Length))
    }

    /// A machine before a frame.
    pub fn frame() -> UpMachine
        ensures { HasTaken result true [] }
    {
        UpMachine::Frame(FrameMachine::new(Way::Up))
    }

    /// Takes the next byte, in one step. The answer is the verdict on all bytes so far; while it is More, the machine goes on.
    pub fn push<L: Ledger>(&mut self, byte: u8, steps: &mut Steps<L>) -> UpStep
        requires { IsTaking self.old }
        ensures answers { (after_login : Bool) (bytes : List ℕ) → HasTaken self.old after_login bytes → Answers self.new after_login (bytes ++ byte ∷ []) result }
        ensures step { steps.new ≡ steps.old + 1 }
    {
        match self {
            UpMachine::Login(login) => match login.push(byte, steps) {
                Scan::More => UpStep::More,
                Scan::Whole(imei) => UpStep::Login(imei),
                Scan::Broken(found) => UpStep::Broken(found),
            },
            UpMachine::Frame(frame) => match frame.push(byte, steps) {
                FrameStep::More => UpStep::More,
                FrameStep::Whole(kind) => UpStep::Frame(kind),
                FrameStep::Broken(found) => UpStep::Broken(found),
            },
        }
    }
}
