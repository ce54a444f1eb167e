//! A sink that is left alone once it has failed.
ghost use Rattle.std.specs.Prelude.{◌++◌, ℕ, List};
ghost use Rattle.text_streams.specs.States.{SinkState};
ghost use Rattle.fmb_show.specs.Printing.{HasPrinted};

use avl_values::Failed;
use text_streams::{Sink, write_text};

/// Prints a text after what was printed, and says whether the sink has failed.
pub fn print<K: Sink>(sink: &mut K, failed: bool, text: &[u8]) -> bool
    ensures { (start : SinkState) → (printed : List ℕ) → HasPrinted start (K.state sink.old) failed printed
        → HasPrinted start (K.state sink.new) result (printed ++ text.now) }
{
    if failed {
        return true;
    }
    match write_text(sink, text) {
        Ok(()) => false,
        Err(Failed) => true,
    }
}
