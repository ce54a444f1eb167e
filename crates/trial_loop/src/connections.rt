//! The connections of a trial.
ghost use Rattle.std.specs.Prelude.{◌≡◌, ◌≤◌, ℕ, true, [], ◌∷◌, ◌++◌, slice_get, length, map, IfOk, OnOk, Some};
ghost use Rattle.std.specs.List.{Contains};
ghost use Rattle.trial_loop.specs.Feeding.{FeedsNumber};
ghost use Rattle.trial_loop.specs.Opened.{AreAt};
ghost use Rattle.trial_play.specs.ServerLines.{changed_at};
ghost use Rattle.trial_play.specs.Trials.{logs_of};
ghost use Rattle.trial_wire.specs.Connections.{Connection, cut_by_power, shut};

use crate::connection::TrialConnection;
use avl_values::NoMemory;
use medium_model::Medium;
use session_core::Known;
use shelf::Shelf;
use std::alloc::Global;
use std::marker::Model;
use trial_model::Outcome;

/// All connections so far, in order of number.
#[derive(Drop)]
pub struct Connections {
    all: Vec<TrialConnection>,
    // The places of those whose sessions may go on.
    places: Vec<usize>,
}

impl Model for Connections {
    ghost use Rattle.std.specs.Prelude.{List};
    ghost use Rattle.trial_loop.specs.Opened.{AreAt};
    ghost use Rattle.trial_wire.specs.Connections.{Connection};

    ghost Value = { List Connection };

    ghost view = { λ c. c.all.items };

    ghost invariant = { λ c. AreAt c.places.items c.all.items };
}

// Notes a place where a session goes on. Without memory nothing changes.
fn note(places: &mut Vec<usize>, place: usize, goes_on: bool) -> Result<(), NoMemory>
    ensures kept { (n : ℕ) → Contains places.old.items n → Contains places.new.items n }
    ensures noted { OnOk result (goes_on ≡ true → Contains places.new.items place) }
{
    if goes_on {
        places.push(place)?;
    }
    Ok(())
}

// Cuts all connections, of which none goes on but at these places.
fn cut_at(all: &mut Vec<TrialConnection>, places: &[usize])
    requires { AreAt places.now all.old.items }
    ensures { all.new.items ≡ map cut_by_power all.old.items }
{
    for place in places {
        if *place < all.len() {
            all[*place].cut();
        }
    }
}

impl Connections {
    /// None. It takes no memory.
    pub fn new(alloc: Global) -> Connections
        ensures { result ≡ [] }
    {
        Connections {
            all: Vec::new(alloc),
            places: Vec::new(alloc),
        }
    }

    /// Puts a connection last.
    pub fn push(&mut self, connection: TrialConnection) -> Result<(), NoMemory>
        ensures { OnOk result (self.new ≡ self.old ++ connection ∷ []) }
    {
        note(&mut self.places, self.all.len(), connection.goes_on())?;
        self.all.push(connection)?;
        Ok(())
    }

    /// The end of the connection of this number, from 1, was seen (a `close` line).
    pub fn close(&mut self, number: u32)
        ensures { self.new ≡ changed_at shut number self.old }
    {
        let number = number as usize;
        if number >= 1 && number <= self.all.len() {
            self.all[number - 1].shut();
        }
    }

    /// The server's power loss ends all sessions that go on. It takes as long as there were such sessions since the last one.
    pub fn cut_all(&mut self)
        ensures { self.new ≡ map cut_by_power self.old }
    {
        cut_at(&mut self.all, self.places.as_slice());
        self.places.clear();
    }

    /// Gives the session of the connection of this number, from 1, the next bytes of its stream, if it goes on: at most `bytes` of them;
    /// None is all (a `late` line). After NoMemory the trial can't go on.
    pub fn feed<M: Medium>(
        &mut self,
        shelf: &mut Shelf<M>,
        known: &Known,
        number: u32,
        bytes: Option<u64>,
    ) -> Result<(), NoMemory>
        requires { (n : ℕ) (w : Connection) → slice_get self.old n ≡ Some w → w.log.up_given ≤ length w.log.up }
        ensures { OnOk result (FeedsNumber known.now number bytes self.old self.new shelf.old shelf.new) }
    {
        let number = number as usize;
        if number < 1 || number > self.all.len() {
            return Ok(());
        }
        self.all[number - 1].feed(shelf, known, bytes)
    }

    /// Puts all logs into an outcome, in order.
    pub fn into_logs(self, outcome: Outcome) -> Result<Outcome, NoMemory>
        ensures { IfOk result (λ all. all ≡ record outcome { connections = outcome.connections ++ logs_of self }) }
    {
        let Connections { all, .. } = self;
        let mut outcome = outcome;
        for connection in all {
            outcome.push_connection(connection.into_log())?;
        }
        Ok(outcome)
    }
}
