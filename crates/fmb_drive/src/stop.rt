/// Why a drive ends before its script does.
#[derive(Clone, Copy, Debug, PartialEq, Eq)]
pub(crate) enum Stop {
    /// The sink failed.
    SinkFault,
    /// The flash failed.
    MediumFault,
    /// The host failed to open the flash, or to dial.
    HostFault,
    /// The flash's length isn't that of the slots.
    Size { got: u64, wanted: u64 },
    /// The first slot of the flash that is open and isn't a record.
    Slot { slot: u16 },
    /// The next sequence is 2^63.
    Sequence,
    NoMemory,
}
