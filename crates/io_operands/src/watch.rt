ghost use Rattle.std.specs.Prelude.{◌≡◌, None, Some};
ghost use Rattle.io_operands.specs.Firing.{fires, fires_by, is_in_range};
ghost use Rattle.io_operands.specs.Watching.{Watched};

use crate::{IoSetting, Operand};
use std::marker::Model;

/// An I/O element that is watched, seen as its setting and the value that it had last.
#[derive(Clone, Copy, Debug)]
pub struct Watch {
    setting: IoSetting,
    last: Option<u64>,
}

impl Model for Watch {
    ghost use Rattle.io_operands.specs.Watching.{Watched};

    ghost Value = { Watched };

    ghost view = { λ w. record { setting = w.setting; last = w.last } };

    ghost inverse = { λ w. record { setting = w.setting; last = w.last } };
}

impl Watch {
    /// Has seen no value yet.
    pub fn new(setting: IoSetting) -> Watch
        ensures { result ≡ record { setting = setting; last = None } }
    {
        Watch {
            setting,
            last: None,
        }
    }

    /// The I/O setting that it watches.
    pub fn setting(&self) -> IoSetting
        ensures { result ≡ self.now.setting }
    {
        self.setting
    }

    /// Whether the operand fires at this value, which is remembered. At the first value nothing fires.
    pub fn fired(&mut self, value: u64) -> bool
        ensures fires { result ≡ fires self.old value }
        ensures remembers { self.new ≡ record self.old { last = Some value } }
    {
        let fired = match self.last {
            None => false,
            Some(before) => self.setting.fires(before, value),
        };
        self.last = Some(value);
        fired
    }
}

impl IoSetting {
    fn contains(&self, value: u64) -> bool
        ensures { result ≡ is_in_range self.now.low self.now.high value }
    {
        self.low <= value && value <= self.high
    }

    fn fires(&self, before: u64, value: u64) -> bool
        ensures { result ≡ fires_by self.now.operand self.now.low self.now.high before value }
    {
        match self.operand {
            Operand::Exit => self.contains(before) && !self.contains(value),
            Operand::Entrance => !self.contains(before) && self.contains(value),
            Operand::Both => self.contains(before) != self.contains(value),
            Operand::Hysteresis => {
                before <= self.high && value > self.high || before >= self.low && value < self.low
            }
            Operand::Change => before != value,
            Operand::Monitoring => false,
        }
    }
}

impl Default for Watch {
    /// Watches the default setting.
    fn default() -> Watch {
        Watch::new(IoSetting::default())
    }
}
