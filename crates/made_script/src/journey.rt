//! Where the journey of a made script stands.
ghost use Rattle.std.specs.Prelude.{◌≡◌, ◌<◌, ◌≤◌, ◌^◌, length, IfOk};
ghost use Rattle.made_script.specs.Made.{after_turn, fix_of, rounds_of, started};
ghost use Rattle.made_script.specs.Ranges.{IsTurn};

use crate::turn::{Event, Turn};
use acquisition::Fix;
use arrayvec::ArrayVec;
use avl_values::{Gps, NoMemory};
use std::alloc::Global;
use std::marker::Model;

/// A vehicle on its journey.
#[derive(Clone, Copy)]
pub struct Vehicle {
    /// Metres.
    pub odometer: u64,
    /// Degrees from north.
    pub angle: u32,
}

/// The time, the number of `round` lines so far, and each vehicle.
#[derive(Drop)]
pub struct Journey {
    time: u64,
    rounds: u32,
    vehicles: Vec<Vehicle>,
}

impl Model for Journey {
    ghost use Rattle.made_script.specs.Made.{Stand};

    ghost Value = { Stand };

    ghost view = { λ j. record { time = j.time; rounds = j.rounds; vehicles = j.vehicles.items } };
}

impl Journey {
    ghost use Rattle.made_script.specs.Standing.{HasRoom};

    /// A journey's start: this many parked vehicles, at 1,560,000,000,000 ms. NoMemory makes nothing.
    pub fn new(alloc: Global, devices: u32) -> Result<Journey, NoMemory>
        ensures { IfOk result (λ journey. journey ≡ started devices) }
    {
        let parked = Vehicle {
            odometer: 0,
            angle: 0,
        };
        Ok(Journey {
            time: 1_560_000_000_000,
            rounds: 0,
            vehicles: vec![in alloc; parked; devices as usize]?,
        })
    }

    /// How many `round` lines the turns so far have.
    pub fn rounds(&self) -> u32
        ensures { result ≡ self.now.rounds }
    {
        self.rounds
    }

    /// Goes on by a turn.
    #[tactic(auto, unfolding(crate::specs::Made::after_turn))]
    pub fn take(&mut self, turn: &Turn)
        requires room { HasRoom self.old }
        requires range { IsTurn (length self.old.vehicles) turn.now }
        ensures { self.new ≡ after_turn self.old turn.now }
    {
        self.time += 1000;
        self.rounds += rounds_of(turn.event);
        let place = turn.device as usize - 1;
        let vehicle = self.vehicles[place];
        self.vehicles[place] = Vehicle {
            odometer: vehicle.odometer + u64::from(turn.speed / 3),
            angle: (vehicle.angle + turn.bend) % 360,
        };
    }

    /// The fix of a turn that was taken.
    pub fn fix(&self, turn: &Turn) -> Fix
        requires room { HasRoom self.now }
        requires range { IsTurn (length self.now.vehicles) turn.now }
        ensures { result ≡ fix_of self.now turn.now }
    {
        let vehicle = self.vehicles[turn.device as usize - 1];
        let mut values = ArrayVec::new();
        values.push(u64::from(turn.ignition));
        values.push(u64::from(turn.voltage));
        Fix {
            time: self.time,
            gps: Gps {
                longitude: 250_000_000 + turn.east as i32,
                latitude: 546_000_000 + turn.north as i32,
                altitude: 100,
                angle: vehicle.angle as u16,
                satellites: 9,
                speed: turn.speed as u16,
            },
            odometer: vehicle.odometer,
            values,
        }
    }
}

fn rounds_of(event: Event) -> u32
    ensures { result ≡ rounds_of event }
{
    match event {
        Event::WholeRound { .. } | Event::CutRound { .. } => 1,
        Event::Power | Event::DeviceFuse { .. } | Event::ServerFuse { .. } | Event::Nothing => 0,
    }
}
