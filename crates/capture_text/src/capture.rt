ghost use Rattle.std.specs.Prelude.{◌≡◌, Err, IfErr, IfOk, IsOk, Ok, OnOk};
ghost use Rattle.std.specs.Iterator.{YieldsFirst, item_count};
ghost use Rattle.capture_text.specs.Capture.{capture_of, lines_say};

use crate::fault::{CaptureFault, CaptureRefusal};
use crate::line::{CaptureLine, judge_line, split_line};
use std::marker::Model;
use text_lines::{ContentLines, LONGEST};

/// The lines of a well-formed capture, one after the other. Contracts see it as those that are left.
#[derive(Drop)]
pub struct Capture<'a> {
    lines: ContentLines<'a>,
}

impl<'a> Model for Capture<'a> {
    ghost use Rattle.std.specs.Prelude.{IsOk, List};
    ghost use Rattle.capture_text.specs.Capture.{LineValue, lines_say, said_by};

    ghost Value = { List LineValue };

    ghost view = { λ c. said_by c.lines };

    ghost invariant = { λ c. IsOk (lines_say c.lines) };
}

impl<'a> Capture<'a> {
    /// Judges a text, and takes it as a capture where it has no fault.
    pub fn new(text: &'a [u8]) -> Result<Self, CaptureRefusal>
        ensures lines { IfOk result (λ capture. capture_of text.entry.now ≡ Ok capture) }
        ensures refused { IfErr result (λ refusal. capture_of text.entry.now ≡ Err refusal) }
    {
        if text.len() > LONGEST {
            return Err(CaptureRefusal {
                line: 0,
                fault: CaptureFault::TextTooLong,
            });
        }
        judge(ContentLines::new(text))?;
        Ok(Capture {
            lines: ContentLines::new(text),
        })
    }
}

impl<'a> Iterator for Capture<'a> {
    type Item = CaptureLine<'a>;

    ghost next_gives = { YieldsFirst (λ lines. lines) };

    ghost remaining = { item_count (λ lines. lines) };

    fn next(&mut self) -> Option<CaptureLine<'a>> {
        let line = self.lines.next()?;
        let (word, digits) = split_line(line.text).unwrap();
        Some(CaptureLine::new(line.number, word, digits))
    }
}

// The first fault of lines.
fn judge(lines: ContentLines<'_>) -> Result<(), CaptureRefusal>
    ensures sound { OnOk result (IsOk (lines_say lines.entry)) }
    ensures refused { IfErr result (λ refusal. lines_say lines.entry ≡ Err refusal) }
{
    for line in lines {
        if let Err(fault) = judge_line(line.text) {
            return Err(CaptureRefusal {
                line: line.number,
                fault,
            });
        }
    }
    Ok(())
}
