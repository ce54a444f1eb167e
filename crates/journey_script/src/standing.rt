//! What the reader keeps of the lines so far, so that a line is judged without a walk over them.
ghost use Rattle.std.specs.Prelude.{◌≡◌, ℕ, ◌+◌, ◌≤◌, ◌<◌, ◌^◌, ◌||◌, [], is_some, IfErr, OnOk};
ghost use Rattle.journey_script.specs.Compact.{HasFewValues, line_in};
ghost use Rattle.journey_script.specs.Taking.{IsRefusedBy, Knows, Takes};

use crate::compact::CompactLine;
use crate::connections::Connections;
use crate::devices::{Devices, take_closing, take_device, take_fix, take_setting};
use crate::fault::LineFault;
use avl_values::Imei;
use std::alloc::Global;
use std::collections::BTreeMap;
use trial_model::Who;

/// The devices and the connections of the lines so far.
#[derive(Drop)]
pub struct Standing {
    pub devices: Devices,
    pub connections: Connections,
}

impl Standing {
    /// Before the first line.
    pub fn new(alloc: Global) -> Standing
        ensures knows { Knows result [] }
        ensures count { result.connections.count ≡ 0 }
    {
        Standing {
            devices: BTreeMap::new(alloc),
            connections: Connections::new(),
        }
    }

    /// Takes one line more, or says its fault by the lines before it.
    pub fn take(&mut self, line: &CompactLine) -> Result<(), LineFault>
        requires { self.old.connections.count < 2 ^ 63 }
        ensures takes { OnOk result (Takes self.old self.new (line_in line.now)) }
        ensures few { OnOk result (HasFewValues line.now) }
        ensures count { OnOk result (self.new.connections.count ≤ self.old.connections.count + 1) }
        ensures refused { IfErr result (IsRefusedBy self.old (line_in line.now)) }
    {
        match line {
            CompactLine::Device { imei, codec, .. } => {
                take_device(&mut self.devices, *imei, *codec)?;
                Ok(())
            }
            CompactLine::Setting { imei, setting } => {
                take_setting(&mut self.devices, *imei, *setting)?;
                Ok(())
            }
            CompactLine::Fix { imei, fix } => {
                take_fix(&mut self.devices, *imei, fix.values.as_slice())?;
                Ok(())
            }
            CompactLine::Round { imei, up, down, .. } => {
                take_closing(&mut self.devices, *imei)?;
                self.connections.take_round(is_limited(*up, *down))?;
                Ok(())
            }
            CompactLine::Drain { imei, .. } => {
                take_closing(&mut self.devices, *imei)?;
                self.connections.take_round(false)?;
                Ok(())
            }
            CompactLine::Late { connection, .. } => {
                self.connections.take_late(*connection)?;
                Ok(())
            }
            CompactLine::Close { connection } => {
                self.connections.take_close(*connection)?;
                Ok(())
            }
            CompactLine::Power { who } => match who {
                Who::Device(imei) => {
                    take_closing(&mut self.devices, *imei)?;
                    Ok(())
                }
                Who::Server => {
                    self.connections.take_power();
                    Ok(())
                }
            },
            CompactLine::Fuse { who, .. } => match who {
                Who::Device(imei) => {
                    take_closing(&mut self.devices, *imei)?;
                    Ok(())
                }
                Who::Server => {
                    self.connections.take_fuse();
                    Ok(())
                }
            },
        }
    }
}

fn is_limited(up: Option<u32>, down: Option<u32>) -> bool
    ensures { result ≡ (is_some up || is_some down) }
{
    up.is_some() || down.is_some()
}
