//! The devices of a script, with their settings.
ghost use Rattle.std.specs.Prelude.{◌≡◌, IfOk, OnOk};
ghost use Rattle.journey_script.specs.Grammar.{IsScript};
ghost use Rattle.trial_loop.specs.Enrolling.{FitsNext, HasRoom, enrolled_after, with_setting};
ghost use Rattle.trial_model.specs.Script.{devices_of, lines_of};

use arrayvec::ArrayVec;
use avl_values::{Codec, Imei, NoMemory, Order};
use io_operands::IoSetting;
use journey_script::{Script, ScriptLine};
use std::alloc::Global;
use std::marker::Model;

/// What a `device` line says, with the settings of its `io` lines.
#[derive(Drop)]
pub struct Enrolled {
    pub imei: Imei,
    pub codec: Codec,
    pub slots: u16,
    pub order: Order,
    pub period: u64,
    pub distance: u64,
    pub angle: u16,
    pub speed: u16,
    pub known: bool,
    pub settings: ArrayVec<IoSetting, 32>,
}

impl Model for Enrolled {
    ghost use Rattle.trial_model.specs.Script.{Device};

    ghost Value = { Device };

    ghost view = { λ d. record {
      imei = d.imei;
      codec = d.codec;
      slots = d.slots;
      order = d.order;
      period = d.period;
      distance = d.distance;
      angle = d.angle;
      speed = d.speed;
      known = d.known;
      settings = d.settings.items;
    } };
}

// One setting more for the device of this IMEI.
fn add_setting(devices: &mut [Enrolled], imei: Imei, setting: IoSetting)
    requires { HasRoom imei devices.old }
    ensures { devices.new ≡ with_setting imei setting devices.old }
{
    for place in 0..devices.len() {
        let device = &mut devices[place];
        if device.imei == imei {
            device.settings.push(setting);
        }
    }
}

// The devices after one line more.
fn enroll_line(devices: &mut Vec<Enrolled>, line: &ScriptLine) -> Result<(), NoMemory>
    requires { FitsNext devices.old.items line.now }
    ensures { OnOk result (devices.new.items ≡ enrolled_after devices.old.items line.now) }
{
    match line {
        ScriptLine::Device {
            imei,
            codec,
            slots,
            order,
            period,
            distance,
            angle,
            speed,
            known,
        } => {
            devices.push(Enrolled {
                imei: *imei,
                codec: *codec,
                slots: *slots,
                order: *order,
                period: *period,
                distance: *distance,
                angle: *angle,
                speed: *speed,
                known: *known,
                settings: ArrayVec::new(),
            })?;
        }
        ScriptLine::Setting { imei, setting } => {
            add_setting(devices.as_mut_slice(), *imei, *setting);
        }
        _ => (),
    }
    Ok(())
}

/// The devices of a script, in the order of their lines. It goes through the lines once.
pub fn enroll(alloc: Global, script: &Script) -> Result<Vec<Enrolled>, NoMemory>
    ensures devices { IfOk result (λ devices. devices.items ≡ devices_of (lines_of script.now)) }
    ensures is_script { IsScript script.now }
{
    let mut devices = Vec::new(alloc);
    for i in 0..script.len() {
        enroll_line(&mut devices, &script.line_at(i))?;
    }
    Ok(devices)
}
