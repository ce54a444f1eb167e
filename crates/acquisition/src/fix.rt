use arrayvec::ArrayVec;
use avl_values::Gps;

/// What a vehicle's sensors say at one moment.
#[derive(Debug, Drop)]
pub struct Fix {
    /// Milliseconds since 1970 UTC. Times may go backwards.
    pub time: u64,
    /// Where the vehicle is.
    pub gps: Gps,
    /// Metres. Distances come from it alone; it may go backwards.
    pub odometer: u64,
    /// One value for each I/O setting of the device, in the order of the settings.
    pub values: ArrayVec<u64, 32>,
}
