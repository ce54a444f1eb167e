/// The work was done, and the input was read to its end.
pub const DONE: u8 = 0;

/// The words are none that the program knows.
pub const REFUSED_WORDS: u8 = 2;

/// The script or the capture has a first fault.
pub const REFUSED_TEXT: u8 = 3;

/// The text could not be read.
pub const SOURCE_FAULT: u8 = 4;

/// What was to be printed could not be written whole.
pub const SINK_FAULT: u8 = 5;

/// The flash or the archive failed.
pub const MEDIUM_FAULT: u8 = 6;

/// A text, a medium, an address or a door could not be opened.
pub const HOST_FAULT: u8 = 7;

/// What stands on the flash or in the archive isn't what it should be.
pub const REFUSED_MEDIUM: u8 = 8;

/// Memory was refused.
pub const NO_MEMORY: u8 = 9;
