ghost use Rattle.std.specs.Prelude.{◌≡◌, IfNone, IfOk, IfSome, None};
ghost use Rattle.std.specs.List.{filter_map};
ghost use Rattle.fmb_drive.specs.Drive.{device_in};
ghost use Rattle.fmb_drive.specs.Scripts.{IsFirstDevice, TellsDevice};
ghost use Rattle.journey_script.specs.Grammar.{IsScript};
ghost use Rattle.trial_model.specs.Script.{lines_of, setting_on};

use acquisition::Settings;
use avl_values::{Imei, NoMemory, Order};
use journey_script::{IoSetting, Script, ScriptLine};
use std::alloc::Global;

/// The device that a script drives.
#[derive(Drop)]
pub(crate) struct Driven {
    pub(crate) imei: Imei,
    pub(crate) slots: u16,
    pub(crate) order: Order,
    pub(crate) settings: Settings,
}

// The place of the script's first `device` line.
fn device_place(script: &Script) -> Option<usize>
    ensures none { IfNone result (device_in script.now ≡ None) }
    ensures first { IfSome result (IsFirstDevice script.now) }
    ensures is_script { IsScript script.now }
{
    for i in 0..script.len() {
        match script.line_at(i) {
            ScriptLine::Device { .. } => return Some(i),
            _ => {}
        }
    }
    None
}

// The I/O settings that the script gives a device, in order.
fn settings_on(alloc: Global, script: &Script, imei: Imei) -> Result<Vec<IoSetting>, NoMemory>
    ensures { IfOk result (λ settings. settings.items ≡ filter_map (setting_on imei) (lines_of script.now)) }
{
    let mut settings = Vec::new(alloc);
    for i in 0..script.len() {
        match script.line_at(i) {
            ScriptLine::Setting { imei: who, setting } => {
                if who == imei {
                    settings.push(setting)?;
                }
            }
            _ => {}
        }
    }
    Ok(settings)
}

/// The device of the script's first `device` line, with the settings of its `io` lines; None where there is no such line.
pub(crate) fn device_of(alloc: Global, script: &Script) -> Result<Option<Driven>, NoMemory>
    ensures { IfOk result (λ found. TellsDevice found script.now) }
{
    let Some(place) = device_place(script) else {
        return Ok(None);
    };
    match script.line_at(place) {
        ScriptLine::Device {
            imei,
            codec,
            slots,
            order,
            period,
            distance,
            angle,
            speed,
            known: _,
        } => {
            let ios = settings_on(alloc, script, imei)?;
            match Settings::check(codec, period, distance, angle, speed, ios.as_slice()) {
                Ok(settings) => Ok(Some(Driven {
                    imei,
                    slots,
                    order,
                    settings,
                })),
                Err(_) => unreachable!(),
            }
        }
        _ => unreachable!(),
    }
}
