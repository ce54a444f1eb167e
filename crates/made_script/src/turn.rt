use medium_model::Tear;

/// What is in a made script after the fix of a turn.
#[derive(Clone, Copy)]
pub enum Event {
    /// A round with no limit.
    WholeRound { piece: u32 },
    /// A round of which only N bytes up are delivered; then the others come late, and the connection is closed.
    CutRound { piece: u32, up: u32 },
    /// A power loss of the device.
    Power,
    /// A fuse of the device's flash.
    DeviceFuse { calls: u64, tear: Tear },
    /// A fuse of the server's archive.
    ServerFuse { calls: u64, tear: Tear },
    Nothing,
}

/// A turn of a made script: what is drawn for it, in the order of the draws.
#[derive(Clone, Copy)]
pub struct Turn {
    /// From 1.
    pub device: u32,
    /// km/h, below 120.
    pub speed: u32,
    /// Degrees, below 31, by which the angle grows.
    pub bend: u32,
    /// 10^-7 degrees, below 1,000,000, east of the longitude 25.
    pub east: u32,
    /// 10^-7 degrees, below 1,000,000, north of the latitude 54.6.
    pub north: u32,
    /// 0 or 1.
    pub ignition: u32,
    /// Millivolts.
    pub voltage: u32,
    pub event: Event,
}
