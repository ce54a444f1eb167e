//! What the lines so far say of each device, by its IMEI.
ghost use Rattle.std.specs.Prelude.{◌≡◌, ℕ, ◌+◌, ◌==◌, ◌≤◌, [], ◌∷◌, ◌++◌, nat_lt, is_none, false, length, Some, None, IfErr, IfSome, IfOk, OnOk, if◌then◌else◌};
ghost use Rattle.std.specs.BTreeMap.{btree_map_len};
ghost use Rattle.acquisition.specs.Checking.{setting_fault};
ghost use Rattle.acquisition.specs.Elements.{width_of};
ghost use Rattle.avl_values.specs.Width.{limit};
ghost use Rattle.journey_script.specs.Later.{all_fit, device_fault, fix_fault, of_device, setting_line_fault, unless_enrolled, values_fault, with_closed, with_setting};
ghost use Rattle.journey_script.specs.Standing.{RefusesLater, enrolled_at, enrolled_by};

use crate::fault::{LineFault, ScriptFault};
use acquisition::Settings;
use arrayvec::ArrayVec;
use avl_values::{Codec, Imei, Width};
use io_operands::IoSetting;
use std::collections::BTreeMap;

/// A device that has its `device` line.
#[derive(Drop)]
pub struct DeviceState {
    pub codec: Codec,
    pub settings: ArrayVec<IoSetting, 32>,
    /// Whether no `io` line may follow.
    pub closed: bool,
}

/// The devices of the lines so far, by their IMEI's number.
pub type Devices = BTreeMap<u64, DeviceState>;

/// The most devices of a script (this project's own).
const MOST_DEVICES: usize = 64;

/// A `device` line is taken.
pub fn take_device(devices: &mut Devices, imei: Imei, codec: Codec) -> Result<(), LineFault>
    ensures sound { OnOk result (device_fault (enrolled_at devices.old imei) (btree_map_len devices.old) ≡ None) }
    ensures enrolled { OnOk result ((q : ℕ) → enrolled_at devices.new q ≡ (if imei == q then Some (record { codec = codec; settings = []; closed = false }) else enrolled_at devices.old q)) }
    ensures count { OnOk result (btree_map_len devices.new ≡ btree_map_len devices.old + 1) }
    ensures refused { IfErr result (RefusesLater (device_fault (enrolled_at devices.old imei) (btree_map_len devices.old))) }
{
    let number = imei.number();
    if devices.contains_key(&number) {
        return Err(LineFault::Fault(ScriptFault::TwiceDevice));
    }
    if devices.len() >= MOST_DEVICES {
        return Err(LineFault::Fault(ScriptFault::TooManyDevices));
    }
    let state = DeviceState {
        codec,
        settings: ArrayVec::new(),
        closed: false,
    };
    devices.insert(number, state)?;
    Ok(())
}

/// An `io` line is taken.
pub fn take_setting(
    devices: &mut Devices,
    imei: Imei,
    setting: IoSetting,
) -> Result<(), ScriptFault>
    ensures sound { OnOk result (setting_line_fault (enrolled_at devices.old imei) setting ≡ None) }
    ensures enrolled { OnOk result ((q : ℕ) → enrolled_at devices.new q ≡ of_device imei (with_setting setting) q (enrolled_at devices.old q)) }
    ensures count { OnOk result (btree_map_len devices.new ≡ btree_map_len devices.old) }
    ensures refused { IfErr result (λ fault. setting_line_fault (enrolled_at devices.old imei) setting ≡ Some fault) }
{
    let number = imei.number();
    let Some(state) = devices.get_mut(&number) else {
        return Err(ScriptFault::NoDevice);
    };
    add_setting(state, setting)
}

fn add_setting(state: &mut DeviceState, setting: IoSetting) -> Result<(), ScriptFault>
    ensures sound { OnOk result (setting_line_fault (Some (enrolled_by state.old)) setting ≡ None) }
    ensures added { OnOk result (enrolled_by state.new ≡ with_setting setting (enrolled_by state.old)) }
    ensures refused { IfErr result (λ fault. setting_line_fault (Some (enrolled_by state.old)) setting ≡ Some fault) }
{
    if state.closed {
        return Err(ScriptFault::SettingsClosed);
    }
    if state.settings.is_full() {
        return Err(ScriptFault::BadSetting);
    }
    state.settings.push(setting);
    if !are_settings(state.codec, state.settings.as_slice()) {
        return Err(ScriptFault::BadSetting);
    }
    Ok(())
}

// What `Settings::check` says of the I/O settings doesn't depend on the others.
fn are_settings(codec: Codec, settings: &[IoSetting]) -> bool
    ensures { result ≡ is_none (setting_fault codec settings.now) }
{
    Settings::check(codec, 0, 0, 0, 0, settings).is_ok()
}

/// A line that closes the settings of its device is taken.
pub fn take_closing(devices: &mut Devices, imei: Imei) -> Result<(), ScriptFault>
    ensures sound { OnOk result (unless_enrolled (enrolled_at devices.old imei) (λ d. None) ≡ None) }
    ensures enrolled { OnOk result ((q : ℕ) → enrolled_at devices.new q ≡ of_device imei with_closed q (enrolled_at devices.old q)) }
    ensures count { OnOk result (btree_map_len devices.new ≡ btree_map_len devices.old) }
    ensures refused { IfErr result (λ fault. unless_enrolled (enrolled_at devices.old imei) (λ d. None) ≡ Some fault) }
{
    let number = imei.number();
    match devices.get_mut(&number) {
        Some(state) => {
            state.closed = true;
            Ok(())
        }
        None => Err(ScriptFault::NoDevice),
    }
}

/// A `fix` line is taken.
pub fn take_fix(devices: &mut Devices, imei: Imei, values: &[u64]) -> Result<(), ScriptFault>
    ensures sound { OnOk result (fix_fault (enrolled_at devices.old imei) values.now ≡ None) }
    ensures few { OnOk result (length values.now ≤ 32) }
    ensures enrolled { OnOk result ((q : ℕ) → enrolled_at devices.new q ≡ of_device imei with_closed q (enrolled_at devices.old q)) }
    ensures count { OnOk result (btree_map_len devices.new ≡ btree_map_len devices.old) }
    ensures refused { IfErr result (λ fault. fix_fault (enrolled_at devices.old imei) values.now ≡ Some fault) }
{
    let number = imei.number();
    let Some(state) = devices.get_mut(&number) else {
        return Err(ScriptFault::NoDevice);
    };
    check_values(state.settings.as_slice(), values)?;
    state.closed = true;
    Ok(())
}

fn check_values(settings: &[IoSetting], values: &[u64]) -> Result<(), ScriptFault>
    ensures sound { OnOk result (values_fault settings.now values.now ≡ None) }
    ensures count { OnOk result (length values.now ≡ length settings.now) }
    ensures refused { IfErr result (λ fault. values_fault settings.now values.now ≡ Some fault) }
{
    if values.len() != settings.len() {
        return Err(ScriptFault::ValueCount);
    }
    if !all_fit(settings, values) {
        return Err(ScriptFault::ValueTooWide);
    }
    Ok(())
}

fn all_fit(settings: &[IoSetting], values: &[u64]) -> bool
    ensures { result ≡ all_fit settings.now values.now }
{
    settings
        .iter()
        .zip(values)
        .all(|(setting, value)| fits(setting, *value))
}

fn fits(setting: &IoSetting, value: u64) -> bool
    ensures { result ≡ nat_lt value (limit (width_of setting.now)) }
{
    match Width::from_bytes(setting.width).unwrap_or(Width::W1) {
        Width::W1 => value < 1 << 8,
        Width::W2 => value < 1 << 16,
        Width::W4 => value < 1 << 32,
        Width::W8 => true,
    }
}
