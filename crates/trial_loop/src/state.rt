//! A trial in the midst of its script, and what each line does.
ghost use Rattle.std.specs.Prelude.{◌≡◌, ◌<◌, ◌&&◌, IfOk, IfSome, None, OnOk, Some, is_none, is_some, not};
ghost use Rattle.medium_model.specs.CallsLeft.{unlimited};
ghost use Rattle.trial_device.specs.Fuses.{calls_of};
ghost use Rattle.trial_loop.specs.Loops.{CanPlay, Connects, PlaysNext};
ghost use Rattle.trial_model.specs.Script.{opening_of};
ghost use Rattle.trial_model.specs.declared.script.ScriptLine.{ScriptLine};
ghost use Rattle.trial_model.specs.declared.script.ScriptLine.TheVariants as Line;
ghost use Rattle.trial_model.specs.declared.script.Who.TheVariants as Who;
ghost use Rattle.trial_play.specs.ServerLines.{EndsLine, PlaysServerPower};
ghost use Rattle.trial_server.specs.Serving.{armed};

use crate::connection::TrialConnection;
use crate::connections::Connections;
use crate::rounding::{Rounded, round};
use crate::sides::place_of;
use avl_values::{Imei, NoMemory};
use medium_model::{Bench, Tear};
use session_core::{Known, Session};
use shelf::Shelf;
use std::alloc::Global;
use std::marker::Model;
use trial_device::DeviceSide;
use trial_model::{Fix, ScriptLine, Who};
use trial_talks::ConnectionLine;

/// A trial: the devices' sides in the order of their lines, all connections so far, the server's archive, the devices that it knows, and
/// the server's fuse that waits.
#[derive(Drop)]
pub struct Trial<B: Bench> {
    pub sides: Vec<DeviceSide<B>>,
    pub connections: Connections,
    pub shelf: Shelf<B>,
    pub known: Known,
    pub fuse: Option<(u64, Tear)>,
    pub alloc: Global,
}

impl<B: Bench> Model for Trial<B> {
    ghost use Rattle.trial_device.specs.Fuses.{calls_of};
    ghost use Rattle.trial_loop.specs.Loops.{LoopState};

    ghost Value = { LoopState };

    ghost view = { λ t. record {
      trial = record { sides = t.sides.items; connections = t.connections; shelf = t.shelf; fuse = calls_of t.fuse };
      known = t.known;
    } };
}

// The same limit.
fn wide(limit: Option<u32>) -> Option<u64>
    ensures { result ≡ limit }
{
    match limit {
        None => None,
        Some(limit) => Some(limit as u64),
    }
}

// The session, where the line leaves its connection half-open: where it has a limit either way.
fn if_half_open(line: &ConnectionLine, session: Option<Session>) -> Option<Session>
    ensures going { is_some result ≡ (is_some session && not (is_none line.now.up && is_none line.now.down)) }
    ensures same { IfSome result (λ s. session ≡ Some s) }
{
    if line.up.is_none() && line.down.is_none() {
        None
    } else {
        session
    }
}

impl<B: Bench> Trial<B> {
    // A `fix` line.
    fn fix(&mut self, imei: Imei, fix: &Fix) -> Result<(), NoMemory>
        requires { CanPlay (Line.Fix imei fix.now) self.old }
        ensures { OnOk result (PlaysNext (Line.Fix imei fix.now) self.old self.new) }
    {
        match place_of(self.sides.as_slice(), imei) {
            None => Ok(()),
            Some(place) => self.sides[place].fix(fix),
        }
    }

    // A device's `power` line.
    fn power(&mut self, imei: Imei)
        requires { CanPlay (Line.Power (Who.Device imei)) self.old }
        ensures { PlaysNext (Line.Power (Who.Device imei)) self.old self.new }
    {
        if let Some(place) = place_of(self.sides.as_slice(), imei) {
            self.sides[place].power();
        }
    }

    // A device's `fuse` line.
    fn arm_fuse(&mut self, imei: Imei, calls: u64, tear: Tear)
        requires { CanPlay (Line.Fuse (Who.Device imei) calls tear) self.old }
        ensures { PlaysNext (Line.Fuse (Who.Device imei) calls tear) self.old self.new }
    {
        if let Some(place) = place_of(self.sides.as_slice(), imei) {
            self.sides[place].arm_fuse(calls, tear);
        }
    }

    // The server's `fuse` line.
    fn arm_server_fuse(&mut self, calls: u64, tear: Tear)
        ensures { PlaysNext (Line.Fuse Who.Server calls tear) self.old self.new }
    {
        self.fuse = Some((calls, tear));
    }

    // The server's power loss and power-up.
    fn restart_server(&mut self) -> Result<(), NoMemory>
        ensures power { OnOk result (PlaysServerPower self.old.trial self.new.trial) }
        ensures sides { self.new.trial.sides ≡ self.old.trial.sides }
        ensures known { self.new.known ≡ self.old.known }
    {
        self.fuse = None;
        self.connections.cut_all();
        self.shelf.restart()
    }

    // A `close` line.
    fn close(&mut self, connection: u32)
        ensures { PlaysNext (Line.Close connection) self.old self.new }
    {
        self.connections.close(connection);
    }

    // Begins a line that the server's fuse may cover: where one waits, the archive's medium is armed.
    fn begin(&mut self)
        requires { self.old.trial.shelf.medium.left ≡ unlimited }
        ensures { self.new ≡ record self.old { trial = record self.old.trial { shelf = armed self.old.trial.fuse self.old.trial.shelf } } }
    {
        if let Some((calls, tear)) = self.fuse {
            self.shelf.arm(calls, tear);
        }
    }

    // Ends such a line: where a fuse waited, with the server's power loss and power-up, and then none waits.
    fn end(&mut self) -> Result<(), NoMemory>
        ensures ends { OnOk result (EndsLine self.old.trial.fuse self.old.trial.connections self.new.trial.connections self.old.trial.shelf self.new.trial.shelf) }
        ensures fuse { OnOk result (self.new.trial.fuse ≡ None) }
        ensures sides { self.new.trial.sides ≡ self.old.trial.sides }
        ensures known { self.new.known ≡ self.old.known }
    {
        match self.fuse {
            None => Ok(()),
            Some(_) => self.restart_server(),
        }
    }

    // A `late` line.
    fn late(&mut self, connection: u32, bytes: Option<u32>) -> Result<(), NoMemory>
        requires { CanPlay (Line.Late connection bytes) self.old }
        ensures { OnOk result (PlaysNext (Line.Late connection bytes) self.old self.new) }
    {
        self.begin();
        self.connections
            .feed(&mut self.shelf, &self.known, connection, wide(bytes))?;
        self.end()
    }

    // A line that opens a connection.
    fn connect(self, line: ConnectionLine) -> Result<Trial<B>, NoMemory>
        requires next { (l : ScriptLine) × (opening_of l ≡ Some (record { imei = line.imei; drains = line.drains; up = line.up; down = line.down })) × CanPlay l self }
        requires piece { 0 < line.piece }
        ensures { IfOk result (Connects (record { imei = line.imei; drains = line.drains; up = line.up; down = line.down }) self) }
    {
        let mut trial = self;
        trial.begin();
        let Trial {
            mut sides,
            mut connections,
            shelf,
            known,
            fuse,
            alloc,
        } = trial;
        let Some(place) = place_of(sides.as_slice(), line.imei) else {
            unreachable!()
        };
        let Rounded {
            log,
            session,
            shelf,
            known,
        } = round(alloc, &mut sides[place], shelf, known, line)?;
        connections.push(TrialConnection::new(log, if_half_open(&line, session)))?;
        let mut trial = Trial {
            sides,
            connections,
            shelf,
            known,
            fuse,
            alloc,
        };
        trial.end()?;
        Ok(trial)
    }

    // A `round` line. A script has no piece of 0 bytes; where one were 0, it would be 1.
    fn round(
        self,
        imei: Imei,
        piece: u32,
        up: Option<u32>,
        down: Option<u32>,
    ) -> Result<Trial<B>, NoMemory>
        requires { CanPlay (Line.Round imei piece up down) self }
        ensures { IfOk result (PlaysNext (Line.Round imei piece up down) self) }
    {
        self.connect(ConnectionLine {
            imei,
            drains: false,
            piece: piece.max(1) as usize,
            up: wide(up),
            down: wide(down),
        })
    }

    // A `drain` line.
    fn drain(self, imei: Imei, piece: u32) -> Result<Trial<B>, NoMemory>
        requires { CanPlay (Line.Drain imei piece) self }
        ensures { IfOk result (PlaysNext (Line.Drain imei piece) self) }
    {
        self.connect(ConnectionLine {
            imei,
            drains: true,
            piece: piece.max(1) as usize,
            up: None,
            down: None,
        })
    }

    // A `power` line.
    fn lose_power(&mut self, who: Who) -> Result<(), NoMemory>
        requires { CanPlay (Line.Power who) self.old }
        ensures { OnOk result (PlaysNext (Line.Power who) self.old self.new) }
    {
        match who {
            Who::Device(imei) => {
                self.power(imei);
                Ok(())
            }
            Who::Server => self.restart_server(),
        }
    }

    // A `fuse` line.
    fn arm(&mut self, who: Who, calls: u64, tear: Tear)
        requires { CanPlay (Line.Fuse who calls tear) self.old }
        ensures { PlaysNext (Line.Fuse who calls tear) self.old self.new }
    {
        match who {
            Who::Device(imei) => self.arm_fuse(imei, calls, tear),
            Who::Server => self.arm_server_fuse(calls, tear),
        }
    }

    /// Plays a line. NoMemory where a growth of memory was refused: the trial is over then.
    pub fn play(self, line: &ScriptLine) -> Result<Trial<B>, NoMemory>
        requires { CanPlay line.now self }
        ensures { IfOk result (PlaysNext line.now self) }
    {
        let mut trial = self;
        match line {
            ScriptLine::Device { .. } => (),
            ScriptLine::Setting { .. } => (),
            ScriptLine::Fix { imei, fix } => trial.fix(*imei, fix)?,
            ScriptLine::Round {
                imei,
                piece,
                up,
                down,
            } => return trial.round(*imei, *piece, *up, *down),
            ScriptLine::Drain { imei, piece } => return trial.drain(*imei, *piece),
            ScriptLine::Late { connection, bytes } => trial.late(*connection, *bytes)?,
            ScriptLine::Close { connection } => trial.close(*connection),
            ScriptLine::Power { who } => trial.lose_power(*who)?,
            ScriptLine::Fuse { who, calls, tear } => trial.arm(*who, *calls, *tear),
        }
        Ok(trial)
    }
}
