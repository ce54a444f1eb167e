//! A device of Codec 8 whose period of one second alone decides.
ghost use Rattle.std.specs.Prelude.{◌≡◌, ◌+◌, ◌≤◌, ◌^◌, ℕ, [], IfSome, OnSome, length};
ghost use Rattle.medium.specs.declared.power.Power.TheVariants as power;
ghost use Rattle.medium_model.specs.Content.{settled};
ghost use Rattle.device_rows.specs.Played.{IsPlayed};

use acquisition::Settings;
use arrayvec::ArrayVec;
use avl_values::{Codec, Gps, Imei, Order};
use flash_ring::Ring;
use medium::MemoryBench;
use medium_model::{Bench, Tear};
use std::alloc::Global;
use trial_device::{DeviceSide, OnceList};
use trial_model::Fix;

/// A line of the device.
#[derive(Clone, Copy)]
pub enum Step {
    /// A fix at a time.
    Fix(u64),
    /// A fuse of N calls, and its tear.
    Fuse(u64, Tear),
    Power,
}

/// How many records are in each list, and on flash, each once.
#[derive(Clone, Copy, Debug, PartialEq, Eq)]
pub struct Counts {
    pub acquired: usize,
    pub cut: usize,
    pub overwritten: usize,
    pub flash: usize,
}

// A fix at a time, with nothing else.
fn fix(time: u64) -> Fix
    ensures { result.values.items ≡ [] }
{
    Fix {
        time,
        gps: Gps {
            longitude: 0,
            latitude: 0,
            altitude: 0,
            angle: 0,
            satellites: 0,
            speed: 0,
        },
        odometer: 0,
        values: ArrayVec::new(),
    }
}

fn fix_at<B: Bench>(side: &mut DeviceSide<B>, time: u64) -> Option<()>
    requires { IsPlayed (2 ^ 32) side.old }
    ensures { OnSome result ((n : ℕ) → IsPlayed n side.old → IsPlayed (n + 1) side.new) }
{
    let fix = fix(time);
    match side.fix(&fix) {
        Ok(()) => Some(()),
        Err(_) => None,
    }
}

fn play_one<B: Bench>(side: &mut DeviceSide<B>, step: Step) -> Option<()>
    requires { IsPlayed (2 ^ 32) side.old }
    ensures { OnSome result ((n : ℕ) → IsPlayed n side.old → IsPlayed (n + 1) side.new) }
{
    match step {
        Step::Fix(time) => fix_at(side, time),
        Step::Fuse(calls, tear) => {
            side.arm_fuse(calls, tear);
            Some(())
        }
        Step::Power => {
            side.power();
            Some(())
        }
    }
}

fn step_all<B: Bench>(side: &mut DeviceSide<B>, steps: &[Step]) -> Option<()>
    requires played { IsPlayed 0 side.old }
    requires few { length steps.now ≤ 16 }
{
    for line in steps {
        play_one(side, *line)?;
    }
    Some(())
}

fn settings() -> Option<Settings>
    ensures { IfSome result (λ s. s.ios ≡ []) }
{
    match Settings::check(Codec::C8, 1000, 0, 0, 0, &[]) {
        Ok(settings) => Some(settings),
        Err(_) => None,
    }
}

// The device on an empty bench.
fn device_with(
    alloc: Global,
    bench: MemoryBench,
    settings: Settings,
    slots: u16,
) -> Option<DeviceSide<MemoryBench>>
    requires some { 1 ≤ slots }
    requires few { slots ≤ 4096 }
    requires empty { bench.content ≡ settled [] }
    requires unarmed { bench.power ≡ power.Unarmed }
    requires plain { settings.ios ≡ [] }
    ensures { IfSome result (IsPlayed 0) }
{
    let imei = Imei::from_number(356_307_042_441_013)?;
    match DeviceSide::new(alloc, bench, imei, settings, Order::Oldest, slots, true) {
        Ok(side) => Some(side),
        Err(_) => None,
    }
}

fn device(alloc: Global, slots: u16) -> Option<DeviceSide<MemoryBench>>
    requires some { 1 ≤ slots }
    requires few { slots ≤ 4096 }
    ensures { IfSome result (IsPlayed 0) }
{
    let settings = settings()?;
    match MemoryBench::new(alloc) {
        Ok(bench) => device_with(alloc, bench, settings, slots),
        Err(_) => None,
    }
}

// How many records a flash holds, each once.
fn flash(alloc: Global, ring: &Ring<MemoryBench>, slots: u16) -> Option<usize> {
    if ring.is_down() {
        return None;
    }
    let mut list = OnceList::new(alloc);
    for slot in 0..slots {
        if let Some(rec) = ring.rec_at(slot) {
            list.add(rec).ok()?;
        }
    }
    Some(list.into_list().len())
}

/// What these lines of a device with N slots come to.
pub fn play(alloc: Global, slots: u16, steps: &[Step]) -> Option<Counts>
    requires some { 1 ≤ slots }
    requires few { slots ≤ 4096 }
    requires short { length steps.now ≤ 16 }
{
    let mut side = device(alloc, slots)?;
    step_all(&mut side, steps)?;
    let parts = side.into_parts();
    Some(Counts {
        acquired: parts.acquired.len(),
        cut: parts.cut.len(),
        overwritten: parts.overwritten.len(),
        flash: flash(alloc, &parts.ring, slots)?,
    })
}
