/// Where a vehicle was (Teltonika, Data Sending Protocols, GPS element).
#[derive(Clone, Copy, Debug, PartialEq, Eq)]
pub struct Gps {
    /// 10^-7 degrees, negative in the west.
    pub longitude: i32,
    /// 10^-7 degrees, negative in the south.
    pub latitude: i32,
    /// Metres above the sea. That it is signed is this project's own reading.
    pub altitude: i16,
    /// Degrees from north. Every number of its type is accepted.
    pub angle: u16,
    /// Satellites in use.
    pub satellites: u8,
    /// km/h.
    pub speed: u16,
}
