ghost use Rattle.std.specs.Prelude.{◌≡◌, ◌<◌, ◌≤◌, ◌↔◌, nat_lt, length, position, Some, None, IfSome, IsTrue, MatchResult, IfOk};
ghost use Rattle.std.specs.Option.{is_none};
ghost use Rattle.avl_values.specs.Width.{width_of_bytes};
ghost use Rattle.acquisition.specs.Checking.{full_length, setting_fault};
ghost use Rattle.acquisition.specs.Elements.{ValuesFit};

use crate::elements::values_fit;
use crate::fix::Fix;
use arrayvec::ArrayVec;
use avl_values::{Codec, Width};
use io_operands::IoSetting;
use record_layout::id_width;
use record_writing::shortest_length;
use std::marker::Model;

/// Why a device can't have some settings.
#[derive(Clone, Copy, Debug, PartialEq, Eq)]
pub enum SettingFault {
    /// There are more than 32 I/O settings.
    TooMany,
    /// The first I/O setting whose width isn't 1, 2, 4 or 8, counted from 0.
    BadWidth { index: u8 },
    /// The first I/O setting whose id is above 255, with Codec 8, counted from 0.
    IdTooWide { index: u8 },
    /// A record with all elements has more than 255 bytes.
    RecordTooLong { bytes: u32 },
}

/// What a device acquires records by (this project's own). Each record that such settings make has at most 255 bytes.
#[derive(Drop)]
pub struct Settings {
    pub(crate) codec: Codec,
    pub(crate) period: u64,
    pub(crate) distance: u64,
    pub(crate) angle: u16,
    pub(crate) speed: u16,
    pub(crate) ios: ArrayVec<IoSetting, 32>,
}

impl Model for Settings {
    ghost use Rattle.std.specs.Prelude.{◌≡◌, None};
    ghost use Rattle.acquisition.specs.Settings.{AcquisitionSettings};
    ghost use Rattle.acquisition.specs.Checking.{setting_fault};

    ghost Value = { AcquisitionSettings };

    ghost view = { λ s. record { codec = s.codec; period = s.period; distance = s.distance; angle = s.angle; speed = s.speed; ios = s.ios.items } };

    ghost invariant = { λ s. setting_fault s.codec s.ios.items ≡ None };
}

impl Settings {
    /// Settings for a device: the period in milliseconds, the distance in metres, the angle in degrees and the speed in km/h. Each
    /// of them that is 0 is switched off. The faults are judged in the order of the enum. It takes no memory.
    pub fn check(
        codec: Codec,
        period: u64,
        distance: u64,
        angle: u16,
        speed: u16,
        ios: &[IoSetting],
    ) -> Result<Settings, SettingFault>
        ensures checked { MatchResult result (λ _. setting_fault codec ios.now ≡ None) (λ fault. setting_fault codec ios.now ≡ Some fault) }
        ensures settings { IfOk result (λ s. s ≡ record { codec = codec; period = period; distance = distance; angle = angle; speed = speed; ios = ios.now }) }
    {
        check_ios(codec, ios)?;
        let mut copy = ArrayVec::new();
        let _added = copy.try_extend_from_slice(ios);
        Ok(Settings {
            codec,
            period,
            distance,
            angle,
            speed,
            ios: copy,
        })
    }

    /// Whether a fix has as many values as there are I/O settings, and each fits its setting's width.
    pub fn fits(&self, fix: &Fix) -> bool
        ensures { IsTrue result ↔ ValuesFit self.now.ios fix.now.values.items }
    {
        values_fit(self.ios.as_slice(), fix.values.as_slice())
    }

    /// The codec of the records that these settings make.
    pub fn codec(&self) -> Codec
        ensures { result ≡ self.now.codec }
    {
        self.codec
    }

    /// The number of I/O settings.
    pub fn count(&self) -> usize
        ensures count { result ≡ length self.now.ios }
        ensures most { result ≤ 32 }
    {
        self.ios.len()
    }
}

fn check_ios(codec: Codec, ios: &[IoSetting]) -> Result<(), SettingFault>
    ensures { MatchResult result (λ _. setting_fault codec ios.now ≡ None) (λ fault. setting_fault codec ios.now ≡ Some fault) }
{
    if ios.len() > 32 {
        return Err(SettingFault::TooMany);
    }
    if let Some(i) = first_bad_width(ios) {
        return Err(SettingFault::BadWidth { index: i as u8 });
    }
    if codec == Codec::C8 {
        if let Some(i) = first_wide_id(ios) {
            return Err(SettingFault::IdTooWide { index: i as u8 });
        }
    }
    let bytes = full_length(codec, ios);
    if bytes > 255 {
        return Err(SettingFault::RecordTooLong { bytes });
    }
    Ok(())
}

/// The first I/O setting whose width isn't 1, 2, 4 or 8.
fn first_bad_width(ios: &[IoSetting]) -> Option<usize>
    ensures is { result ≡ position (λ s. is_none (width_of_bytes s.width)) ios.now }
    ensures within { IfSome result (λ i. i < length ios.now) }
{
    ios.iter()
        .position(|s| Width::from_bytes(s.width).is_none())
}

/// The first I/O setting whose id has two bytes.
fn first_wide_id(ios: &[IoSetting]) -> Option<usize>
    ensures is { result ≡ position (λ s. nat_lt 255 s.id) ios.now }
    ensures within { IfSome result (λ i. i < length ios.now) }
{
    ios.iter().position(|s| s.id > 255)
}

/// The bytes of a record with all elements.
fn full_length(codec: Codec, ios: &[IoSetting]) -> u32
    requires { length ios.now ≤ 32 }
    ensures { result ≡ full_length codec ios.now }
{
    let id = u32::from(id_width(codec).bytes());
    let mut total = shortest_length(codec) as u32;
    for s in ios {
        total += id + u32::from(s.width);
    }
    total
}
