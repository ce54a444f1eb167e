//! A text that is printed as a capture.
ghost use Rattle.std.specs.Prelude.{◌≡◌, IfOk};
ghost use Rattle.fmb_show.specs.Printing.{HasPrinted};
ghost use Rattle.fmb_show.specs.Showed.{Showed};
ghost use Rattle.fmb_show.specs.Shown.{line_print};
ghost use Rattle.capture_text.specs.Capture.{capture_of};
ghost use Rattle.std.specs.Prelude.{List, ℕ, Ok, Err, ◌++◌, codes};
ghost use Rattle.text_streams.specs.States.{SinkState};
ghost use Rattle.text_streams.specs.Writes.{Prints};

use crate::line::push_bytes;
use crate::printing::print;
use avl_values::NoMemory;
use capture_text::{Capture, CaptureLine, CaptureRefusal};
use frame_channel::Up;
use std::alloc::Global;
use text_streams::{Sink, refused_text};

/// How the printing of a capture ended.
#[derive(Clone, Copy, Debug, PartialEq, Eq)]
pub enum ShowEnd {
    /// All its items were printed.
    Done,
    /// The text is refused, or a fault of an item ends it, whatever the sink did.
    Fault,
    /// There is no fault, and the sink failed.
    SinkFault,
    /// Memory was refused. What was printed is what is shown of some first lines, and a line that says so.
    NoMemory,
}

/// Says that memory ran out, after what was printed.
fn give_up<K: Sink>(sink: &mut K, failed: bool) -> ShowEnd
    ensures end { result ≡ ShowEnd.NoMemory }
    ensures line { (start : SinkState) → (printed : List ℕ) → HasPrinted start (K.state sink.old) failed printed
        → Prints (printed ++ codes "no memory\n") start (K.state sink.new) }
{
    print(sink, failed, b"no memory\n");
    ShowEnd::NoMemory
}

/// Prints why a text is refused.
fn refuse<K: Sink>(alloc: Global, refusal: CaptureRefusal, sink: &mut K) -> ShowEnd
    ensures { Showed (Err refusal) result (K.state sink.old) (K.state sink.new) }
{
    let Ok(line) = refused_text(alloc, refusal.line, refusal.fault.name()) else {
        return give_up(sink, false);
    };
    print(sink, false, &line);
    ShowEnd::Fault
}

/// Puts what is printed of a line of the capture in place of what `out` has, and says whether a fault ends it.
fn line_text(
    line: &CaptureLine<'_>,
    up: &mut Up,
    bytes: &mut Vec<u8>,
    out: &mut Vec<u8>,
) -> Result<bool, NoMemory>
    ensures text { IfOk result (λ faulty. out.new.items ≡ (line_print line.now).text) }
    ensures faulty { IfOk result (λ faulty. faulty ≡ (line_print line.now).faulty) }
{
    out.clear();
    line.decode(bytes)?;
    push_bytes(out, up, line.word(), bytes, line.number())
}

/// Prints the lines of a capture that are left.
fn show_lines<K: Sink>(alloc: Global, capture: Capture<'_>, sink: &mut K) -> ShowEnd
    ensures { Showed (Ok capture.entry) result (K.state sink.old) (K.state sink.new) }
{
    let Ok(mut up) = Up::frames(alloc) else {
        return give_up(sink, false);
    };
    let mut bytes = Vec::new(alloc);
    let mut out = Vec::new(alloc);
    let mut failed = false;
    for line in capture {
        let Ok(faulty) = line_text(&line, &mut up, &mut bytes, &mut out) else {
            return give_up(sink, failed);
        };
        failed = print(sink, failed, &out);
        if faulty {
            return ShowEnd::Fault;
        }
    }
    if failed {
        ShowEnd::SinkFault
    } else {
        ShowEnd::Done
    }
}

/// Prints the lines of a capture, and of a refused text the line that says why. The text is judged whole before anything is
/// printed; then each line's bytes are read once.
pub fn show_capture<K: Sink>(alloc: Global, text: &[u8], sink: &mut K) -> ShowEnd
    ensures { Showed (capture_of text.now) result (K.state sink.old) (K.state sink.new) }
{
    match Capture::new(text) {
        Ok(capture) => show_lines(alloc, capture, sink),
        Err(refusal) => refuse(alloc, refusal, sink),
    }
}
