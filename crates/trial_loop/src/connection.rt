//! A connection of a trial.
ghost use Rattle.std.specs.Prelude.{◌≡◌, ◌<◌, ◌≤◌, ◌^◌, ℕ, true, false, List, length, take, IfNone, IfSome, OnOk, is_some};
ghost use Rattle.trial_model.specs.Connections.{plus, up_to};
ghost use Rattle.trial_loop.specs.Feeding.{FeedsOne};
ghost use Rattle.trial_talks.specs.Rounds.{server_by};
ghost use Rattle.trial_wire.specs.Connections.{cut_by_power, shut};
ghost use Rattle.trial_wire.specs.Hearing.{HasTaken, end_now, rest_in};

use avl_values::{Imei, NoMemory};
use medium_model::Medium;
use session_core::{Known, Session};
use shelf::Shelf;
use std::marker::Model;
use trial_model::{ConnectionOutcome, ServerEnd};
use trial_wire::give;

/// A connection: its log so far, and the server's session while that goes on. The end of a session that goes on is in the log as it
/// would be if the connection ended now.
#[derive(Drop)]
pub struct TrialConnection {
    log: ConnectionOutcome,
    session: Option<Session>,
}

impl Model for TrialConnection {
    ghost use Rattle.std.specs.Prelude.{IfSome, is_some, take};
    ghost use Rattle.trial_wire.specs.Connections.{Connection};
    ghost use Rattle.trial_wire.specs.Hearing.{HasTaken};

    ghost Value = { Connection };

    ghost view = { λ c. record { log = c.log; going = is_some c.session } };

    // A session that goes on has taken just the bytes that the log says were given to it.
    ghost invariant = { λ c. IfSome c.session (HasTaken (take c.log.up_given c.log.up)) };
}

// How a session that goes on would end now.
fn end_if_now(session: &Session) -> ServerEnd
    ensures { (bytes : List ℕ) → HasTaken bytes session.now → result ≡ end_now (length (rest_in bytes)) }
{
    match session.have() {
        0 => ServerEnd::Ended,
        have => ServerEnd::EndedInside { have },
    }
}

/// How a session ended, or would end now.
pub fn server_end(ended: Option<ServerEnd>, session: &Session) -> ServerEnd
    ensures { (bytes : List ℕ) → IfNone ended (HasTaken bytes session.now) → result ≡ server_by ended (length (rest_in bytes)) }
{
    match ended {
        Some(end) => end,
        None => end_if_now(session),
    }
}

// Up to where a session has its stream's bytes once it was given this number more; None is all.
fn place_after(given: u64, bytes: Option<u64>, sent: usize) -> usize
    ensures { result ≡ up_to (plus (Some given) bytes) sent }
{
    match bytes {
        None => sent,
        Some(more) => given.saturating_add(more).min(sent as u64) as usize,
    }
}

// An IMEI has at most 15 digits.
fn has_digits(imei: Imei)
    ensures { imei < 10 ^ 15 }
{}

// Memory was refused, and the trial can't go on.
fn is_starved(ended: Option<ServerEnd>) -> bool
    ensures { result ≡ false → ended ≡ Some ServerEnd.NoMemory → ⊥ }
{
    matches!(ended, Some(ServerEnd::NoMemory))
}

impl TrialConnection {
    /// A connection after its own line, with its session where that goes on.
    pub fn new(log: ConnectionOutcome, session: Option<Session>) -> TrialConnection
        requires { IfSome session (HasTaken (take log.up_given log.up)) }
        ensures { result ≡ record { log = log; going = is_some session } }
    {
        TrialConnection { log, session }
    }

    /// Whether its session goes on.
    pub fn goes_on(&self) -> bool
        ensures { result ≡ self.now.going }
    {
        self.session.is_some()
    }

    /// Its end was seen: a session that goes on is over (a `close` line).
    pub fn shut(&mut self)
        ensures { self.new ≡ shut self.old }
    {
        self.session = None;
    }

    /// The server's power loss ends a session that goes on.
    pub fn cut(&mut self)
        ensures { self.new ≡ cut_by_power self.old }
    {
        if self.session.is_some() {
            self.log.server = ServerEnd::Restart;
            self.session = None;
        }
    }

    /// Gives a session that goes on the next bytes of its stream, at most `bytes` of them; None is all (a `late` line). After NoMemory
    /// the trial can't go on.
    pub fn feed<M: Medium>(
        &mut self,
        shelf: &mut Shelf<M>,
        known: &Known,
        bytes: Option<u64>,
    ) -> Result<(), NoMemory>
        requires { self.old.log.up_given ≤ length self.old.log.up }
        ensures feeds { OnOk result (FeedsOne known.now bytes self.old self.new shelf.old shelf.new) }
        ensures over { self.new.going ≡ true → self.old.going ≡ true }
    {
        let Some(session) = &mut self.session else {
            return Ok(());
        };
        let to = place_after(self.log.up_given, bytes, self.log.up.len());
        if to as u64 == self.log.up_given {
            return Ok(());
        }
        has_digits(self.log.imei);
        let piece = &self.log.up.as_slice()[self.log.up_given as usize..to];
        let (_taken, ended) = give(session, shelf, known, piece, &mut self.log.down);
        self.log.server = server_end(ended, session);
        self.log.up_given = to as u64;
        if ended.is_some() {
            self.session = None;
        }
        if is_starved(ended) {
            return Err(NoMemory);
        }
        Ok(())
    }

    /// Its log.
    pub fn into_log(self) -> ConnectionOutcome
        ensures { result ≡ self.log }
    {
        let TrialConnection { log, .. } = self;
        log
    }
}
