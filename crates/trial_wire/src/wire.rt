ghost use Rattle.std.specs.Prelude.{◌≡◌, ◌<◌, ◌≤◌, ◌+◌, ◌++◌, length, take, drop};
ghost use Rattle.session_core.specs.Sessions.{new_session};
ghost use Rattle.trial_model.specs.Connections.{up_to};
ghost use Rattle.trial_wire.specs.Following.{follows_later, follows_none, follows_then};
ghost use Rattle.trial_wire.specs.Hearing.{HasTaken};
ghost use Rattle.trial_wire.specs.WireLinks.{Follows, IsWire, Passes, link_state, new_wire};

use crate::pieces::give;
use avl_values::{ByteList, Failed};
use links::Link;
use medium_model::Medium;
use session_core::{Known, Session};
use shelf::Shelf;
use std::alloc::Global;
use std::marker::Model;
use trial_model::ServerEnd;

/// A device's wire to the server, which owns the server's session and its archive while the device's round runs. It moves at most
/// `piece` bytes at a call, and of each way no more bytes than the line lets through. A session takes at once what it may.
#[derive(Drop)]
pub struct Wire<M: Medium> {
    shelf: Shelf<M>,
    session: Session,
    known: Known,
    limit: Option<u64>,
    most: Option<u64>,
    piece: usize,
    up: ByteList,
    given: usize,
    down: ByteList,
    heard: usize,
    ended: Option<ServerEnd>,
    faults: u64,
}

/// What a wire was made of, and what it carried.
#[derive(Drop)]
pub struct WireParts<M: Medium> {
    pub shelf: Shelf<M>,
    pub session: Session,
    pub known: Known,
    /// What the device sent, and how many bytes of it the session took.
    pub up: ByteList,
    pub given: usize,
    /// What the session wrote, and how many bytes of it the device took.
    pub down: ByteList,
    pub heard: usize,
    /// How the session ended; None where it goes on. NoMemory where a growth was refused.
    pub ended: Option<ServerEnd>,
    /// How often a write of the device found no memory.
    pub faults: u64,
}

impl<M: Medium> Model for Wire<M> {
    ghost use Rattle.std.specs.Prelude.{◌<◌};
    ghost use Rattle.trial_wire.specs.WireLinks.{IsWire, WireState};

    ghost Value = { WireState };

    ghost view = { λ w. record {
      known = w.known;
      limit = w.limit;
      most = w.most;
      up = w.up;
      given = w.given;
      down = w.down;
      heard = w.heard;
      shelf = w.shelf;
      session = w.session;
      ended = w.ended;
      faults = w.faults;
    } };

    ghost invariant = { λ w. (0 < w.piece) × IsWire (record {
      known = w.known;
      limit = w.limit;
      most = w.most;
      up = w.up;
      given = w.given;
      down = w.down;
      heard = w.heard;
      shelf = w.shelf;
      session = w.session;
      ended = w.ended;
      faults = w.faults;
    }) };
}

// As many as a limit lets through.
fn within(limit: Option<u64>, count: usize) -> usize
    ensures { result ≡ up_to limit count }
{
    match limit {
        None => count,
        Some(limit) => (count as u64).min(limit) as usize,
    }
}

// Copies bytes from a place on to the front of a slice.
fn copy_from(bytes: &[u8], at: usize, count: usize, into: &mut [u8])
    requires within { at + count ≤ length bytes.now }
    requires room { count ≤ length into.old }
    ensures { into.new ≡ take count (drop at bytes.now) ++ drop count into.old }
{
    into[..count].copy_from_slice(&bytes[at..at + count]);
}

// Gives a session the bytes between two places.
fn pass<M: Medium>(
    session: &mut Session,
    shelf: &mut Shelf<M>,
    known: &Known,
    up: &[u8],
    given: usize,
    to: usize,
    down: &mut ByteList,
) -> (usize, Option<ServerEnd>)
    requires order { given ≤ to }
    requires size { to ≤ length up.now }
    requires going { HasTaken (take given up.now) session.old }
    ensures { Passes known.now up.now given to session.new shelf.old shelf.new down.old down.new result.0 result.1 }
{
    let (n, ended) = give(session, shelf, known, &up[given..to], down);
    (given + n, ended)
}

impl<M: Medium> Wire<M> {
    /// A wire over a new session, of which the line lets through N bytes up and down; None is no limit.
    pub fn new(
        alloc: Global,
        shelf: Shelf<M>,
        session: Session,
        known: Known,
        limit: Option<u64>,
        most: Option<u64>,
        piece: usize,
    ) -> Wire<M>
        requires piece { 0 < piece }
        requires session { session ≡ new_session }
        ensures { result ≡ new_wire shelf known limit most }
    {
        Wire {
            shelf,
            session,
            known,
            limit,
            most,
            piece,
            up: ByteList::new(alloc),
            given: 0,
            down: ByteList::new(alloc),
            heard: 0,
            ended: None,
            faults: 0,
        }
    }

    /// Gives back what it was made of, and what it carried.
    pub fn into_parts(self) -> WireParts<M>
        ensures shelf { result.shelf ≡ self.shelf }
        ensures session { result.session ≡ self.session }
        ensures known { result.known ≡ self.known }
        ensures up { result.up ≡ self.up }
        ensures given { result.given ≡ self.given }
        ensures down { result.down ≡ self.down }
        ensures heard { result.heard ≡ self.heard }
        ensures ended { result.ended ≡ self.ended }
        ensures faults { result.faults ≡ self.faults }
        ensures wire { IsWire self }
    {
        let Wire {
            shelf,
            session,
            known,
            up,
            given,
            down,
            heard,
            ended,
            faults,
            ..
        } = self;
        WireParts {
            shelf,
            session,
            known,
            up,
            given,
            down,
            heard,
            ended,
            faults,
        }
    }
}

impl<M: Medium> Link for Wire<M> {
    ghost state = { link_state };

    ghost follows = { Follows };

    fn faults(&self) -> u64 {
        self.faults
    }

    fn read(&mut self, into: &mut [u8]) -> Result<usize, Failed> {
        let left = within(self.most, self.down.len()) - self.heard;
        let count = left.min(into.len()).min(self.piece);
        copy_from(self.down.as_slice(), self.heard, count, into);
        self.heard += count;
        Ok(count)
    }

    fn write(&mut self, from: &[u8]) -> Result<usize, Failed> {
        let count = from.len().min(self.piece);
        if self.up.extend_from_slice(&from[..count]).is_err() {
            self.faults = self.faults.saturating_add(1);
            return Err(Failed);
        }
        if self.ended.is_none() {
            let to = within(self.limit, self.up.len());
            let (given, ended) = pass(
                &mut self.session,
                &mut self.shelf,
                &self.known,
                self.up.as_slice(),
                self.given,
                to,
                &mut self.down,
            );
            self.given = given;
            self.ended = ended;
        }
        Ok(count)
    }

    ghost follows_none = { follows_none };

    ghost follows_then = { follows_then };

    ghost follows_later = { follows_later };
}
