//! A command's body, judged byte by byte.
ghost use Rattle.std.specs.Prelude.{◌≡◌, ◌<◌, ◌+◌, ℕ, List, [], ◌∷◌, ◌++◌, length};

use crate::place::CommandPlace;
use crate::verdict::CommandScan;
use command_layout::Way;
use field_machine::Machine;
use layout::Steps;
use std::sync::ledger::Ledger;

/// Judges the bytes of a command's body of a known length, one at a time, and holds none of them. After each byte it answers
/// what `scan_command` returns for all bytes so far.
#[derive(Clone, Copy)]
pub struct CommandMachine {
    machine: Machine<CommandPlace>,
}

impl CommandMachine {
    ghost use Rattle.command_layout.specs.declared.way.Way.{Way};
    ghost use Rattle.command_codecs.specs.Machines.{HasTaken, IsTaking, Answers, taken_of};

    /// A machine for a body of `total` bytes that passes this way, before the first.
    pub fn new(total: u32, way: Way) -> CommandMachine
        requires { 0 < total }
        ensures { HasTaken result total way [] }
    {
        CommandMachine {
            machine: Machine::new(total, CommandPlace::first(total, way)),
        }
    }

    /// How many bytes it has taken, also after the last.
    pub fn taken(&self) -> u32
        ensures is { result ≡ taken_of self.now }
        ensures all { (total : ℕ) (way : Way) (bytes : List ℕ) → HasTaken self.now total way bytes → result ≡ length bytes }
    {
        self.machine.taken()
    }

    /// Takes the next byte, in one step. The answer is the verdict on all bytes so far; while it is More, the machine goes on.
    pub fn push<L: Ledger>(&mut self, byte: u8, steps: &mut Steps<L>) -> CommandScan
        requires { IsTaking self.old }
        ensures answers { (total : ℕ) (way : Way) (bytes : List ℕ) → HasTaken self.old total way bytes → Answers self.new total way (bytes ++ byte ∷ []) result }
        ensures counted { taken_of self.new ≡ taken_of self.old + 1 }
        ensures step { steps.new ≡ steps.old + 1 }
    {
        CommandScan::of(self.machine.push(byte, steps))
    }
}
