use acquisition::Fix;
use avl_values::{Codec, Imei, Order};
use io_operands::IoSetting;
use medium_model::Tear;

/// Whose medium a `power` or a `fuse` line speaks of.
#[derive(Clone, Copy, Debug, PartialEq, Eq)]
pub enum Who {
    Device(Imei),
    Server,
}

/// A line of a trial's script. A number of bytes that is None has no limit (`-` in the text).
#[derive(Debug, Drop)]
pub enum ScriptLine {
    /// A device and its acquisition settings. Sizes are slots of the flash, milliseconds, metres, degrees and km/h; 0
    /// switches a setting off.
    Device {
        imei: Imei,
        codec: Codec,
        slots: u16,
        order: Order,
        period: u64,
        distance: u64,
        angle: u16,
        speed: u16,
        known: bool,
    },
    /// One more I/O setting of a device.
    Setting {
        imei: Imei,
        setting: IoSetting,
    },
    /// A fix is given to the device, which stores the records that it makes.
    Fix {
        imei: Imei,
        fix: Fix,
    },
    /// One connection with at most one packet, in pieces of at most `piece` bytes; at most `up` bytes are delivered to
    /// the server and `down` bytes to the device.
    Round {
        imei: Imei,
        piece: u32,
        up: Option<u32>,
        down: Option<u32>,
    },
    /// One connection with as many packets as it takes, with no limit either way.
    Drain {
        imei: Imei,
        piece: u32,
    },
    /// The next bytes that are on the way on a half-open connection reach the server. Connections are numbered from 1.
    Late {
        connection: u32,
        bytes: Option<u32>,
    },
    /// The server sees the end of a half-open connection.
    Close {
        connection: u32,
    },
    /// A power loss between two medium calls, and power-up.
    Power {
        who: Who,
    },
    /// The next line of this medium has a power loss after N medium calls, with this tear.
    Fuse {
        who: Who,
        calls: u64,
        tear: Tear,
    },
}
