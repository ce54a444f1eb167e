//! The law of records' values, as the contract of a function that does nothing.
ghost use Rattle.show_lines.specs.Laws.{RecordIsRead};

/// The value that is read from a record's bytes is the one that they spell.
pub fn record_is_read()
    ensures { RecordIsRead }
{}
