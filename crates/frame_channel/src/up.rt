//! A stream up, in any pieces.
ghost use Rattle.std.specs.Prelude.{◌≡◌, ◌+◌, ◌<◌, ◌≤◌, ℕ, List, [], false, true, drop, length, take, IfOk, IfSome};
ghost use Rattle.layout.specs.Bytes.{AreBytes};
ghost use Rattle.layout.specs.Rows.{short};
ghost use Rattle.frame_layout.specs.UpRows.{up_verdict};
ghost use Rattle.item_streams.specs.Readers.{fresh};
ghost use Rattle.frame_channel.specs.DataFrames.{BeginsWith, IsNext};
ghost use Rattle.frame_channel.specs.UpPushes.{IsLentUp, PushedByteUp, PushedUp};

use crate::data_frame::{DataFrame, data_frame};
use crate::known_bytes::known_bytes;
use crate::up_item::{UpItem, of_frame};
use crate::up_machine::{UpMachine, UpStep};
use avl_values::NoMemory;
use layout::Steps;
use record_layout::PacketHead;
use std::alloc::Global;
use std::marker::{Brand, Model};
use std::mem::swap;
use std::sync::ledger::{Blank, Ledger};

// The bytes of the longest frame: eight, a body of 65,535, and four.
const LONGEST: usize = 65_547;

fn zeros(alloc: Global, len: usize) -> Result<Vec<u8>, NoMemory>
    ensures { IfOk result (λ bytes. length bytes.items ≡ len) }
{
    Ok(vec![in alloc; 0; len]?)
}

// Writes a frame's body at its place.
fn put_body(frame: &mut [u8], body: &[u8])
    requires { 8 + length body.now ≤ length frame.old }
    ensures len { length frame.new ≡ length frame.old }
    ensures body { take (length body.now) (drop 8 frame.new) ≡ body.now }
{
    frame[8..8 + body.len()].copy_from_slice(body);
}

/// A reader of a stream up: a login, and then frames of data bodies and of responses. It is seen as the bytes of its unfinished
/// item, whether the login has come, whether it has failed, and the body of the frame that was last whole. Its memory is taken
/// at once.
#[derive(Drop)]
pub struct Up {
    buffer: Vec<u8>,
    len: usize,
    last: Vec<u8>,
    body_len: usize,
    machine: UpMachine,
    after_login: bool,
    failed: bool,
}

impl Model for Up {
    ghost use Rattle.std.specs.Prelude.{drop, take};
    ghost use Rattle.item_streams.specs.Readers.{Reader};
    ghost use Rattle.frame_channel.specs.UpBuffers.{IsUp};

    ghost Value = { Reader };

    ghost view = { λ u. record { have = take u.len u.buffer.items; after_first = u.after_login; failed = u.failed; body = take u.body_len (drop 8 u.last.items) } };

    ghost invariant = { λ u. IsUp u.buffer.items u.last.items u.len u.body_len u.after_login u.failed u.machine };
}

impl Up {
    /// A reader before the login. NoMemory where its two buffers aren't given; nothing is made then.
    pub fn new(alloc: Global) -> Result<Up, NoMemory>
        ensures { IfOk result (λ up. up ≡ fresh false) }
    {
        Ok(Up {
            buffer: zeros(alloc, LONGEST)?,
            len: 0,
            last: zeros(alloc, LONGEST)?,
            body_len: 0,
            machine: UpMachine::login(),
            after_login: false,
            failed: false,
        })
    }

    /// A reader after a login. NoMemory where its two buffers aren't given; nothing is made then.
    pub fn frames(alloc: Global) -> Result<Up, NoMemory>
        ensures { IfOk result (λ up. up ≡ fresh true) }
    {
        Ok(Up {
            buffer: zeros(alloc, LONGEST)?,
            len: 0,
            last: zeros(alloc, LONGEST)?,
            body_len: 0,
            machine: UpMachine::frame(),
            after_login: true,
            failed: false,
        })
    }

    /// Begins anew before a login, in the memory that it has, also where it has returned Broken. The body is empty then.
    pub fn begin_login(&mut self)
        ensures { self.new ≡ fresh false }
    {
        self.len = 0;
        self.body_len = 0;
        self.machine = UpMachine::login();
        self.after_login = false;
        self.failed = false;
    }

    /// Begins anew after a login, as `begin_login` does before one.
    pub fn begin_frames(&mut self)
        ensures { self.new ≡ fresh true }
    {
        self.len = 0;
        self.body_len = 0;
        self.machine = UpMachine::frame();
        self.after_login = true;
        self.failed = false;
    }

    /// Takes bytes up to and including the one that decides the item, or the whole piece, and says how many. It must not have
    /// returned Broken. The decision falls on the same byte however the stream is cut. A data frame that is whole at the
    /// piece's front is judged at once, and all else byte by byte.
    pub fn push(&mut self, piece: &[u8]) -> (usize, UpItem)
        requires { self.old.failed ≡ false }
        ensures pushed { PushedUp self.old self.new piece.now result.0 result.1 }
        ensures lent { IsLentUp result.1 self.new.body }
    {
        match self.next_frame(piece) {
            Some(frame) => self.take_frame(frame.head, frame.body),
            None => self.push_from::<Brand>(piece, Blank::new(1)),
        }
    }

    // The data frame that is whole at the front of a piece, where it is the next item.
    fn next_frame<'a>(&self, piece: &'a [u8]) -> Option<DataFrame<'a>>
        ensures { IfSome result (λ frame. IsNext self.now frame.head frame.body.now piece.now) }
    {
        if self.after_login && self.len == 0 {
            data_frame(piece)
        } else {
            None
        }
    }

    // Takes the data frame that is the next item.
    fn take_frame(&mut self, head: PacketHead, body: &[u8]) -> (usize, UpItem)
        requires { length body.now ≤ 65535 }
        ensures pushed { (piece : List ℕ) → IsNext self.old head body.now piece → PushedUp self.old self.new piece result.0 result.1 }
        ensures lent { (piece : List ℕ) → IsNext self.old head body.now piece → IsLentUp result.1 self.new.body }
    {
        put_body(&mut self.last, body);
        self.body_len = body.len();
        (12 + body.len(), UpItem::Packet(head))
    }

    // `push_counted` with a count of its own.
    fn push_from<L: Ledger>(&mut self, piece: &[u8], blank: Blank) -> (usize, UpItem)
        requires name { blank.name ≡ L.name }
        requires parts { blank.parts ≡ L.parts }
        requires some { 0 < blank.parts }
        requires going { self.old.failed ≡ false }
        ensures pushed { PushedUp self.old self.new piece.now result.0 result.1 }
        ensures lent { IsLentUp result.1 self.new.body }
    {
        let mut steps = Steps::<L>::new(blank);
        self.push_counted(piece, &mut steps)
    }

    /// As `push`, with exactly one step a byte taken.
    pub fn push_counted<L: Ledger>(&mut self, piece: &[u8], steps: &mut Steps<L>) -> (usize, UpItem)
        requires { self.old.failed ≡ false }
        ensures pushed { PushedUp self.old self.new piece.now result.0 result.1 }
        ensures lent { IsLentUp result.1 self.new.body }
        ensures steps { steps.new ≡ steps.old + result.0 }
    {
        let _ = self.held();
        for (i, byte) in piece.iter().enumerate() {
            match self.take(*byte, steps) {
                UpItem::More => {}
                item => return (i + 1, item),
            }
        }
        (piece.len(), UpItem::More)
    }

    // The bytes that it has of its unfinished item.
    fn held(&self) -> &[u8]
        ensures is { result.now ≡ self.now.have }
        ensures unfinished { self.now.failed ≡ false → up_verdict self.now.after_first self.now.have ≡ short }
        ensures few { self.now.failed ≡ false → length self.now.have < 65547 }
        ensures fits { length result.now ≤ 65547 }
        ensures bytes { AreBytes self.now.have }
    {
        known_bytes(&self.buffer[..self.len])
    }

    // Takes one byte.
    fn take<L: Ledger>(&mut self, byte: u8, steps: &mut Steps<L>) -> UpItem
        requires { self.old.failed ≡ false }
        ensures pushed { PushedByteUp self.old self.new byte result }
        ensures step { steps.new ≡ steps.old + 1 }
    {
        let len = self.len;
        self.buffer[len] = byte;
        self.len = len + 1;
        match self.machine.push(byte, steps) {
            UpStep::More => UpItem::More,
            UpStep::Login(imei) => {
                self.len = 0;
                self.machine = UpMachine::frame();
                self.after_login = true;
                UpItem::Login(imei)
            }
            UpStep::Frame(kind) => {
                swap(&mut self.buffer, &mut self.last);
                self.body_len = len + 1 - 12;
                self.len = 0;
                self.machine = UpMachine::frame();
                self.after_login = true;
                of_frame(kind)
            }
            UpStep::Broken(found) => {
                self.failed = true;
                UpItem::Broken(found)
            }
        }
    }

    /// The body of the frame that was last whole, empty before the first.
    pub fn body(&self) -> &[u8]
        ensures { result.now ≡ self.now.body }
    {
        &self.last[8..8 + self.body_len]
    }

    /// How many bytes it has of its unfinished item. Unless it has returned Broken they are fewer than the longest frame's, and no
    /// verdict on them has come.
    pub fn have(&self) -> u32
        ensures is { result ≡ length self.now.have }
        ensures unfinished { self.now.failed ≡ false → up_verdict self.now.after_first self.now.have ≡ short }
        ensures bytes { AreBytes self.now.have }
        ensures few { self.now.failed ≡ false → result < 65547 }
    {
        self.held().len() as u32
    }

    /// Whether it has returned Broken.
    pub fn failed(&self) -> bool
        ensures { result ≡ self.now.failed }
    {
        self.failed
    }
}
