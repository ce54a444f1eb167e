//! A stream down, in any pieces.
ghost use Rattle.std.specs.Prelude.{◌≡◌, ◌+◌, ◌<◌, ◌≤◌, [], false, true, length};
ghost use Rattle.layout.specs.Bytes.{AreBytes};
ghost use Rattle.layout.specs.Rows.{short};
ghost use Rattle.frame_layout.specs.DownRows.{down_verdict};
ghost use Rattle.item_streams.specs.Readers.{fresh};
ghost use Rattle.frame_channel.specs.DownPushes.{IsLentDown, PushedByteDown, PushedDown};

use crate::down_item::DownItem;
use crate::down_machine::{DownMachine, DownStep};
use crate::known_bytes::known_bytes;
use arrayvec::ArrayVec;
use layout::Steps;
use std::marker::{Brand, Model};
use std::mem::swap;
use std::sync::ledger::{Blank, Ledger};

/// A reader of a stream down: the login's answer, and then counts and frames of commands. It is seen as the bytes of its
/// unfinished item, whether the login's answer has come, whether it has failed, and the body of the frame that was last whole. It
/// takes no memory.
#[derive(Drop)]
pub struct Down {
    buffer: ArrayVec<u8, 1280>,
    last: ArrayVec<u8, 1280>,
    machine: DownMachine,
    after_answer: bool,
    failed: bool,
}

impl Model for Down {
    ghost use Rattle.frame_channel.specs.BodyIn.{body_in};
    ghost use Rattle.item_streams.specs.Readers.{Reader};
    ghost use Rattle.frame_channel.specs.DownBuffers.{IsDown};

    ghost Value = { Reader };

    ghost view = { λ d. record { have = d.buffer.items; after_first = d.after_answer; failed = d.failed; body = body_in d.last.items } };

    ghost invariant = { λ d. IsDown d.buffer.items d.after_answer d.failed d.machine };
}

impl Down {
    /// A reader before the login's answer.
    pub fn new() -> Down
        ensures { result ≡ fresh false }
    {
        Down {
            buffer: ArrayVec::new(),
            last: ArrayVec::new(),
            machine: DownMachine::answer(),
            after_answer: false,
            failed: false,
        }
    }

    /// A reader after the login's answer.
    pub fn answers() -> Down
        ensures { result ≡ fresh true }
    {
        Down {
            buffer: ArrayVec::new(),
            last: ArrayVec::new(),
            machine: DownMachine::count(),
            after_answer: true,
            failed: false,
        }
    }

    /// Begins anew before the login's answer, also where it has returned Broken. The body is empty then.
    pub fn begin_login(&mut self)
        ensures { self.new ≡ fresh false }
    {
        self.buffer.clear();
        self.last.clear();
        self.machine = DownMachine::answer();
        self.after_answer = false;
        self.failed = false;
    }

    /// Begins anew after the login's answer, as `begin_login` does before it.
    pub fn begin_answers(&mut self)
        ensures { self.new ≡ fresh true }
    {
        self.buffer.clear();
        self.last.clear();
        self.machine = DownMachine::count();
        self.after_answer = true;
        self.failed = false;
    }

    /// Takes bytes up to and including the one that decides the item, or the whole piece, and says how many. It must not have
    /// returned Broken. The decision falls on the same byte however the stream is cut.
    pub fn push(&mut self, piece: &[u8]) -> (usize, DownItem)
        requires { self.old.failed ≡ false }
        ensures pushed { PushedDown self.old self.new piece.now result.0 result.1 }
        ensures lent { IsLentDown result.1 self.new.body }
    {
        self.push_from::<Brand>(piece, Blank::new(1))
    }

    // `push_counted` with a count of its own.
    fn push_from<L: Ledger>(&mut self, piece: &[u8], blank: Blank) -> (usize, DownItem)
        requires name { blank.name ≡ L.name }
        requires parts { blank.parts ≡ L.parts }
        requires some { 0 < blank.parts }
        requires going { self.old.failed ≡ false }
        ensures pushed { PushedDown self.old self.new piece.now result.0 result.1 }
        ensures lent { IsLentDown result.1 self.new.body }
    {
        let mut steps = Steps::<L>::new(blank);
        self.push_counted(piece, &mut steps)
    }

    /// As `push`, with exactly one step a byte taken.
    pub fn push_counted<L: Ledger>(
        &mut self,
        piece: &[u8],
        steps: &mut Steps<L>,
    ) -> (usize, DownItem)
        requires { self.old.failed ≡ false }
        ensures pushed { PushedDown self.old self.new piece.now result.0 result.1 }
        ensures lent { IsLentDown result.1 self.new.body }
        ensures steps { steps.new ≡ steps.old + result.0 }
    {
        let _ = self.held();
        for (i, byte) in piece.iter().enumerate() {
            match self.take(*byte, steps) {
                DownItem::More => {}
                item => return (i + 1, item),
            }
        }
        (piece.len(), DownItem::More)
    }

    // The bytes that it has of its unfinished item.
    fn held(&self) -> &[u8]
        ensures is { result.now ≡ self.now.have }
        ensures unfinished { self.now.failed ≡ false → down_verdict self.now.after_first self.now.have ≡ short }
        ensures few { self.now.failed ≡ false → length self.now.have < 1280 }
        ensures fits { length result.now ≤ 1280 }
        ensures bytes { AreBytes self.now.have }
    {
        known_bytes(self.buffer.as_slice())
    }

    // Takes one byte.
    fn take<L: Ledger>(&mut self, byte: u8, steps: &mut Steps<L>) -> DownItem
        requires { self.old.failed ≡ false }
        ensures pushed { PushedByteDown self.old self.new byte result }
        ensures step { steps.new ≡ steps.old + 1 }
    {
        self.buffer.push(byte);
        match self.machine.push(byte, steps) {
            DownStep::More => DownItem::More,
            DownStep::Answer(answer) => {
                self.buffer.clear();
                self.machine = DownMachine::count();
                self.after_answer = true;
                DownItem::Login(answer)
            }
            DownStep::Count(count) => {
                self.buffer.clear();
                self.machine = DownMachine::count();
                self.after_answer = true;
                DownItem::Count(count)
            }
            DownStep::Order => {
                swap(&mut self.buffer, &mut self.last);
                self.buffer.clear();
                self.machine = DownMachine::count();
                self.after_answer = true;
                DownItem::Order
            }
            DownStep::Broken(found) => {
                self.failed = true;
                DownItem::Broken(found)
            }
        }
    }

    /// The body of the frame that was last whole, empty before the first.
    pub fn body(&self) -> &[u8]
        ensures { result.now ≡ self.now.body }
    {
        let frame = self.last.as_slice();
        if frame.len() < 12 {
            return &[];
        }
        &frame[8..frame.len() - 4]
    }

    /// How many bytes it has of its unfinished item. Unless it has returned Broken they are fewer than 1,280, and no verdict on
    /// them has come.
    pub fn have(&self) -> u32
        ensures is { result ≡ length self.now.have }
        ensures unfinished { self.now.failed ≡ false → down_verdict self.now.after_first self.now.have ≡ short }
        ensures bytes { AreBytes self.now.have }
        ensures few { self.now.failed ≡ false → result < 1280 }
    {
        self.held().len() as u32
    }

    /// Whether it has returned Broken.
    pub fn failed(&self) -> bool
        ensures { result ≡ self.now.failed }
    {
        self.failed
    }
}
