//! The lines of a made script, put last in a draft.
ghost use Rattle.std.specs.Prelude.{◌≡◌, ◌<◌, ◌≤◌, ◌^◌, [], ◌∷◌, ◌++◌, length, None, OnOk};
ghost use Rattle.made_script.specs.Made.{codec_at, device_lines, drain_lines, event_lines, imei_at, lines_at};
ghost use Rattle.trial_model.specs.declared.script.ScriptLine.TheVariants as Line;
ghost use Rattle.made_script.specs.Ranges.{IsTurn};
ghost use Rattle.made_script.specs.Standing.{HasRoom};

use crate::journey::Journey;
use crate::turn::{Event, Turn};
use avl_values::{Codec, Imei, NoMemory, Order};
use io_operands::{IoSetting, Operand};
use journey_script::ScriptDraft;
use std::alloc::Global;
use trial_model::{ScriptLine, Who};

/// The first device has the number 1.
fn imei_at(device: u32) -> Imei
    ensures { result ≡ imei_at device }
{
    Imei::from_number(350_000_000_000_000 + u64::from(device)).unwrap()
}

fn codec_at(device: u32) -> Codec
    ensures { result ≡ codec_at device }
{
    match device % 3 {
        1 => Codec::C8,
        2 => Codec::C8E,
        _ => Codec::C16,
    }
}

const IGNITION: IoSetting = IoSetting {
    id: 239,
    width: 1,
    operand: Operand::Change,
    low: 0,
    high: 0,
    priority: 1,
};

const VOLTAGE: IoSetting = IoSetting {
    id: 66,
    width: 2,
    operand: Operand::Hysteresis,
    low: 11_000,
    high: 15_000,
    priority: 2,
};

/// The `device` line of a device, counted from 1, and its two `io` lines. After NoMemory the draft may have some of them.
pub fn push_device(alloc: Global, draft: &mut ScriptDraft, device: u32) -> Result<(), NoMemory>
    requires { length draft.old < 2 ^ 31 }
    ensures { OnOk result (draft.new ≡ draft.old ++ device_lines device) }
{
    let imei = imei_at(device);
    let line = ScriptLine::Device {
        imei,
        codec: codec_at(device),
        slots: 64,
        order: Order::Oldest,
        period: 10_000,
        distance: 100,
        angle: 15,
        speed: 10,
        known: true,
    };
    draft.push(alloc, &line)?;
    let setting = IGNITION;
    draft.push(alloc, &ScriptLine::Setting { imei, setting })?;
    let setting = VOLTAGE;
    draft.push(alloc, &ScriptLine::Setting { imei, setting })?;
    Ok(())
}

/// Two `drain` lines of a device, counted from 1. After NoMemory the draft may have one of them.
pub fn push_drains(alloc: Global, draft: &mut ScriptDraft, device: u32) -> Result<(), NoMemory>
    requires { length draft.old < 2 ^ 31 }
    ensures { OnOk result (draft.new ≡ draft.old ++ drain_lines device) }
{
    let drain = ScriptLine::Drain {
        imei: imei_at(device),
        piece: 512,
    };
    draft.push(alloc, &drain)?;
    draft.push(alloc, &drain)?;
    Ok(())
}

/// The lines of a turn that was taken.
pub fn push_turn(
    alloc: Global,
    draft: &mut ScriptDraft,
    journey: &Journey,
    turn: &Turn,
) -> Result<(), NoMemory>
    requires draft { length draft.old < 2 ^ 31 }
    requires room { HasRoom journey.now }
    requires range { IsTurn (length journey.now.vehicles) turn.now }
    ensures { OnOk result (draft.new ≡ draft.old ++ lines_at journey.now turn.now) }
{
    let imei = imei_at(turn.device);
    let fix = journey.fix(turn);
    draft.push(alloc, &ScriptLine::Fix { imei, fix })?;
    push_event(alloc, draft, imei, journey.rounds(), turn.event)
}

fn push_event(
    alloc: Global,
    draft: &mut ScriptDraft,
    imei: Imei,
    rounds: u32,
    event: Event,
) -> Result<(), NoMemory>
    requires { length draft.old ≤ 2 ^ 31 }
    ensures { OnOk result (draft.new ≡ draft.old ++ event_lines imei rounds event) }
{
    match event {
        Event::WholeRound { piece } => push_round(alloc, draft, imei, piece, None),
        Event::CutRound { piece, up } => {
            push_round(alloc, draft, imei, piece, Some(up))?;
            let late = ScriptLine::Late {
                connection: rounds,
                bytes: None,
            };
            draft.push(alloc, &late)?;
            draft.push(alloc, &ScriptLine::Close { connection: rounds })
        }
        Event::Power => {
            let who = Who::Device(imei);
            draft.push(alloc, &ScriptLine::Power { who })
        }
        Event::DeviceFuse { calls, tear } => {
            let who = Who::Device(imei);
            draft.push(alloc, &ScriptLine::Fuse { who, calls, tear })
        }
        Event::ServerFuse { calls, tear } => {
            let who = Who::Server;
            draft.push(alloc, &ScriptLine::Fuse { who, calls, tear })
        }
        Event::Nothing => Ok(()),
    }
}

fn push_round(
    alloc: Global,
    draft: &mut ScriptDraft,
    imei: Imei,
    piece: u32,
    up: Option<u32>,
) -> Result<(), NoMemory>
    requires { length draft.old ≤ 2 ^ 31 }
    ensures { OnOk result (draft.new ≡ draft.old ++ Line.Round imei piece up None ∷ []) }
{
    let round = ScriptLine::Round {
        imei,
        piece,
        up,
        down: None,
    };
    draft.push(alloc, &round)
}
