//! The laws, each as the contract of a function that does nothing. They hold for every list of rows.
ghost use Rattle.layout.specs.Laws.{FilledIsWhole, FilledWithin, NoneBeginsAnother, VerdictStays, WholeIsFilled, WithinFilled};

/// A verdict that has come stays, whatever bytes follow.
pub fn verdict_stays<V>()
    ensures { VerdictStays V }
{}

/// Where the verdict is a whole item, the first bytes fill the item's rows.
pub fn whole_is_filled<V>()
    ensures { WholeIsFilled V }
{}

/// Bytes that fill an item's rows are judged to be the whole item, whatever bytes follow.
pub fn filled_is_whole<V>()
    ensures { FilledIsWhole V }
{}

/// No item's bytes begin another item of the same rows, and no item says two values.
pub fn none_begins_another<V>()
    ensures { NoneBeginsAnother V }
{}

/// What fills a body of N bytes and what follows it, fills the body's rows with just N bytes.
pub fn within_filled<V, W>()
    ensures { WithinFilled V W }
{}

/// What fills a body's rows, and then what follows it, fills the whole.
pub fn filled_within<V, W>()
    ensures { FilledWithin V W }
{}
