/// What is kept of the last fix that made a record.
#[derive(Clone, Copy, Debug)]
pub struct LastFix {
    /// Milliseconds since 1970 UTC.
    pub time: u64,
    /// Metres.
    pub odometer: u64,
    /// Degrees from north.
    pub angle: u16,
    /// km/h.
    pub speed: u16,
}
