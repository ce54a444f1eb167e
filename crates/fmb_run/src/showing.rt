//! A text that is read and printed as a capture.
ghost use Rattle.std.specs.Prelude.{◌≡◌, ◌≢◌, ◌⊎◌, List, ℕ, Some, codes, false, true};
ghost use Rattle.std.specs.Io.KnownBytes.{IsAtEnd};
ghost use Rattle.avl_values.specs.Causes.{Rose};
ghost use Rattle.text_streams.specs.Writes.{HasFailed, IsSteady, Prints, PrintsFront, PrintsWhole};
ghost use Rattle.fmb_io.specs.Printed.{and_no_memory};
ghost use Rattle.fmb_io.specs.Text.{OfText};
ghost use Rattle.fmb_show.specs.Shown.{shown as shown_of, shown_front};

use fmb_io::{DONE, NO_MEMORY, REFUSED_TEXT, SINK_FAULT, SOURCE_FAULT, Unread, read_text};
use fmb_show::{ShowEnd, show_capture};
use std::alloc::Global;
use text_streams::{Sink, Source, write_text};

/// Writes a line on a sink. That the sink fails on it changes nothing more.
fn tell<K: Sink>(sink: &mut K, line: &[u8])
    ensures { Prints line.now (K.state sink.old) (K.state sink.new) }
{
    let _ = write_text(sink, line);
}

/// Reads a text to its end, prints as a capture what is in it, and returns the status. Of a text of more than 2^24 bytes only
/// 2^24 + 1 are kept, since it is refused whatever follows.
pub fn run_show<S: Source, K: Sink>(alloc: Global, source: &mut S, sink: &mut K) -> u8
    ensures among { (result ≡ 0) ⊎ (result ≡ 3) ⊎ (result ≡ 4) ⊎ (result ≡ 5) ⊎ (result ≡ 9) }

    // 0: the text was read to its end and has no fault, all that is shown of it was written, and the sink didn't fail
    ensures shown { result ≡ 0 → OfText (S.state source.old).left (λ text. ((shown_of text).faulty ≡ false) × PrintsWhole (shown_of text).text (K.state sink.old) (K.state sink.new)) }
    ensures sink_steady { result ≡ 0 → IsSteady (K.state sink.old) (K.state sink.new) }
    ensures at_end { (result ≡ 0) ⊎ (result ≡ 5) → IsAtEnd (S.state source.new).left }

    // 3: the text has a first fault, whatever the sink does; the fault's line is the last that is shown
    ensures faulty { result ≡ 3 → OfText (S.state source.old).left (λ text. ((shown_of text).faulty ≡ true) × Prints (shown_of text).text (K.state sink.old) (K.state sink.new)) }

    // 4: the source failed
    ensures source_cause { result ≡ 4 → Rose (S.state source.old).faults (S.state source.new).faults }
    ensures source_line { result ≡ 4 → Prints (codes "source fault\n") (K.state sink.old) (K.state sink.new) }
    ensures passed { result ≢ 4 → (S.state source.new).faults ≡ (S.state source.old).faults }

    // 5: the text has no fault, and the sink failed
    ensures cut_off { result ≡ 5 → OfText (S.state source.old).left (λ text. ((shown_of text).faulty ≡ false) × PrintsFront (shown_of text).text (K.state sink.old) (K.state sink.new)) }
    ensures sink_cause { result ≡ 5 → HasFailed (K.state sink.old) (K.state sink.new) }

    // 9: memory ran out, after what is shown of some first lines
    ensures no_memory { result ≡ 9 → OfText (S.state source.old).left (λ text. (k : ℕ) × Prints (and_no_memory (shown_front k text)) (K.state sink.old) (K.state sink.new)) }

    // where the text has no fault and nothing failed, it was shown, or memory ran out; where it has one, that was shown
    ensures complete { (text : List ℕ) → (S.state source.old).left ≡ Some text → (shown_of text).faulty ≡ false
        → (Rose (S.state source.old).faults (S.state source.new).faults → ⊥) → (HasFailed (K.state sink.old) (K.state sink.new) → ⊥) → (result ≡ 0) ⊎ (result ≡ 9) }
    ensures complete_fault { (text : List ℕ) → (S.state source.old).left ≡ Some text → (shown_of text).faulty ≡ true
        → (Rose (S.state source.old).faults (S.state source.new).faults → ⊥) → (result ≡ 3) ⊎ (result ≡ 9) }
{
    match read_text(alloc, source) {
        Ok(text) => match show_capture(alloc, &text, sink) {
            ShowEnd::Done => DONE,
            ShowEnd::Fault => REFUSED_TEXT,
            ShowEnd::SinkFault => SINK_FAULT,
            ShowEnd::NoMemory => NO_MEMORY,
        },
        Err(Unread::Failed) => {
            tell(sink, b"source fault\n");
            SOURCE_FAULT
        }
        Err(Unread::NoMemory) => {
            tell(sink, b"no memory\n");
            NO_MEMORY
        }
    }
}
