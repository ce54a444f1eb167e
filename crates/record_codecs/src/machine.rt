//! A data body, judged byte by byte.
ghost use Rattle.std.specs.Prelude.{◌≡◌, ◌<◌, ◌+◌, ℕ, List, [], ◌∷◌, ◌++◌, length};

use crate::place::PacketPlace;
use crate::scanning::Scan;
use field_machine::Machine;
use layout::Steps;
use std::sync::ledger::Ledger;

/// Judges the bytes of a body of a known length, one at a time, and holds none of them. After each byte it returns what
/// `scan` returns for all bytes so far.
#[derive(Clone, Copy)]
pub struct RecordMachine {
    machine: Machine<PacketPlace>,
}

impl RecordMachine {
    ghost use Rattle.record_codecs.specs.Machines.{HasTaken, IsTaking, Answers, taken_of};

    /// A machine for a body of `total` bytes, before the first.
    pub fn new(total: u32) -> RecordMachine
        requires { 0 < total }
        ensures { HasTaken result total [] }
    {
        RecordMachine {
            machine: Machine::new(total, PacketPlace::Codec),
        }
    }

    /// How many bytes it has taken, also after the last.
    pub fn taken(&self) -> u32
        ensures is { result ≡ taken_of self.now }
        ensures all { (total : ℕ) (bytes : List ℕ) → HasTaken self.now total bytes → result ≡ length bytes }
    {
        self.machine.taken()
    }

    /// Takes the next byte, in one step. The answer is the verdict on all bytes so far; while it is More, the machine goes on.
    pub fn push<L: Ledger>(&mut self, byte: u8, steps: &mut Steps<L>) -> Scan
        requires { IsTaking self.old }
        ensures answers { (total : ℕ) (bytes : List ℕ) → HasTaken self.old total bytes → Answers self.new total (bytes ++ byte ∷ []) result }
        ensures counted { taken_of self.new ≡ taken_of self.old + 1 }
        ensures step { steps.new ≡ steps.old + 1 }
    {
        self.machine.push(byte, steps)
    }
}
