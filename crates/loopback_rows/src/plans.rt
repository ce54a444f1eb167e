//! What each device does at each of its connections.

/// How many devices there are, and how many connections each has.
pub const DEVICES: usize = 20;

pub const CONNECTIONS: u64 = 10;

/// How many records each device has.
pub const RECORDS: u64 = 60;

/// How a connection ends after its whole frames.
#[derive(Clone, Copy, Debug, PartialEq, Eq, Drop)]
pub enum Ending {
    /// The device hangs up.
    HangsUp,
    /// It sends this many bytes of the next frame, 1 to 44, and breaks off: the shortest frame has 45.
    Cut(u64),
    /// It sends the next frame whole, hears this many bytes of its count, 0 to 3, and breaks off.
    Unheard(u64),
}

/// A connection: how many frames are sent and counted at most, and how it ends.
#[derive(Clone, Copy, Debug, PartialEq, Eq, Drop)]
pub struct Plan {
    pub frames: u64,
    pub ending: Ending,
}

/// The plan of a device's connection. In turn they are cut, not heard to the end, and whole; the last one of each device is whole, with
/// all that is left. Those before it have at most nine counted frames of at most five records, so that something is left for each.
pub fn plan_of(device: usize, connection: u64) -> Plan {
    if connection.saturating_add(1) >= CONNECTIONS {
        return Plan {
            frames: RECORDS,
            ending: Ending::HangsUp,
        };
    }
    let turn = connection.wrapping_add(device as u64);
    match turn % 3 {
        0 => Plan {
            frames: connection % 2,
            ending: Ending::Cut(1 + turn.wrapping_mul(7) % 44),
        },
        1 => Plan {
            frames: connection % 2,
            ending: Ending::Unheard(turn % 4),
        },
        _ => Plan {
            frames: 1,
            ending: Ending::HangsUp,
        },
    }
}
