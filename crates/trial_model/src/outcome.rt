ghost use Rattle.std.specs.Prelude.{◌≡◌, ◌<◌, ◌++◌, [], ◌∷◌, length, slice_get, Some, OnOk, OnErr};

use crate::got::Got;
use avl_values::{ByteList, Fault, Imei, NoMemory, RecList, WideList};
use std::alloc::Global;
use std::marker::Model;

/// How a connection ended for its device.
#[derive(Clone, Copy, Debug, PartialEq, Eq)]
pub enum DeviceEnd {
    /// Every packet that was sent was counted, with N records in all.
    Done(u32),
    /// The device had no record, and sent nothing.
    Empty,
    /// The server refused the login.
    Refused,
    /// The connection ended before an answer that was due.
    Broken,
    /// Something else came where an answer was due.
    WrongAnswer { got: Got },
    /// A 17th command frame came.
    TooManyCommands,
    /// The device's flash failed.
    MediumFault,
}

/// How a connection ended for the server.
#[derive(Clone, Copy, Debug, PartialEq, Eq)]
pub enum ServerEnd {
    /// The connection's end came between two items.
    Ended,
    /// The connection's end came inside an item, of which `have` bytes had come.
    EndedInside { have: u32 },
    /// The link failed.
    LinkFault,
    /// The bytes had a first fault.
    Broken(Fault),
    /// The login's IMEI isn't known, and was refused.
    Unknown { imei: Imei },
    /// The archive's medium failed, with its count of faults.
    MediumFault { faults: u64 },
    /// The archive's medium had failed before.
    Down { faults: u64 },
    /// The session took as many bytes as a session may.
    LongEnough { taken: u64 },
    /// Memory was refused.
    NoMemory,
    /// The server's power loss ended the session.
    Restart,
}

/// What became of one connection. Each list has the bytes that were sent; the first N of them were delivered.
#[derive(Debug, Drop)]
pub struct ConnectionOutcome {
    pub imei: Imei,
    /// Bytes from the device to the server.
    pub up: ByteList,
    pub up_given: u64,
    /// Bytes from the server to the device.
    pub down: ByteList,
    pub down_given: u64,
    pub device: DeviceEnd,
    pub server: ServerEnd,
}

/// What became of one device's records. Each list has each record once.
#[derive(Debug, Drop)]
pub struct DeviceOutcome {
    pub imei: Imei,
    /// The records that the device made, in order.
    pub acquired: RecList,
    /// Those whose storing failed, in the order of their failure.
    pub cut: RecList,
    /// Those that a full ring gave up, in that order.
    pub overwritten: RecList,
    /// Those on flash, in order of sequence.
    pub flash: RecList,
    /// Those of this device in the archive, in the archive's order.
    pub archived: WideList,
}

/// The outcome of a trial, seen as a list of devices in the script's order and a list of connections in order of
/// number.
#[derive(Debug, Drop)]
pub struct Outcome {
    devices: Vec<DeviceOutcome>,
    connections: Vec<ConnectionOutcome>,
}

impl Model for Outcome {
    ghost use Rattle.trial_model.specs.Results.{Results};

    ghost Value = { Results };

    ghost view = { λ o. record { devices = o.devices.items; connections = o.connections.items } };
}

impl Outcome {
    /// No device and no connection. Takes no memory.
    pub fn new(alloc: Global) -> Outcome
        ensures devices { result.devices ≡ [] }
        ensures connections { result.connections ≡ [] }
    {
        Outcome {
            devices: Vec::new(alloc),
            connections: Vec::new(alloc),
        }
    }

    /// Puts a device last. Without memory nothing changes.
    pub fn push_device(&mut self, device: DeviceOutcome) -> Result<(), NoMemory>
        ensures ok { OnOk result (self.new ≡ record self.old { devices = self.old.devices ++ device ∷ [] }) }
        ensures err { OnErr result (self.new ≡ self.old) }
    {
        self.devices.push(device)?;
        Ok(())
    }

    /// Puts a connection last. Without memory nothing changes.
    pub fn push_connection(&mut self, connection: ConnectionOutcome) -> Result<(), NoMemory>
        ensures ok { OnOk result (self.new ≡ record self.old { connections = self.old.connections ++ connection ∷ [] }) }
        ensures err { OnErr result (self.new ≡ self.old) }
    {
        self.connections.push(connection)?;
        Ok(())
    }

    /// The number of devices.
    pub fn devices(&self) -> usize
        ensures { result ≡ length self.now.devices }
    {
        self.devices.len()
    }

    /// The device at place `i` from 0.
    pub fn device_at(&self, i: usize) -> &DeviceOutcome
        requires { i < length self.now.devices }
        ensures { slice_get self.now.devices i ≡ Some result.now }
    {
        &self.devices[i]
    }

    /// The number of connections.
    pub fn connections(&self) -> usize
        ensures { result ≡ length self.now.connections }
    {
        self.connections.len()
    }

    /// The connection at place `i` from 0, which has the number `i + 1`.
    pub fn connection_at(&self, i: usize) -> &ConnectionOutcome
        requires { i < length self.now.connections }
        ensures { slice_get self.now.connections i ≡ Some result.now }
    {
        &self.connections[i]
    }
}
