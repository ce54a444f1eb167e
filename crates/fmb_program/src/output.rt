ghost use Rattle.std.specs.Prelude.{◌≡◌, ◌<◌, ◌≤◌, None, IfSome, length};

use avl_values::Failed;
use std::io::Write;
use text_streams::Sink;

/// Standard output, or any writer, as a sink. It passes on each piece at once, and tells nothing of what was written. A write
/// that takes nothing of a piece that isn't empty counts as a failure, and so does a flush that fails.
#[derive(Drop)]
pub struct Output<W> {
    writer: W,
    faults: u64,
}

impl<W: Write + Drop> Output<W> {
    /// The sink of a writer. No call failed yet.
    pub fn new(writer: W) -> Output<W>
        ensures { result.faults ≡ 0 }
    {
        Output { writer, faults: 0 }
    }
}

/// Writes and flushes. None where either fails, or nothing of a piece that isn't empty was taken.
fn write_through<W: Write>(writer: &mut W, from: &[u8]) -> Option<usize>
    ensures bound { IfSome result (λ count. count ≤ length from.now) }
    ensures some { 0 < length from.now → IfSome result (λ count. 0 < count) }
{
    let count = writer.write(from).ok()?;
    writer.flush().ok()?;
    if count == 0 && !from.is_empty() {
        return None;
    }
    Some(count)
}

impl<W: Write + Drop> Sink for Output<W> {
    ghost state = { λ s. record { written = None; faults = s.faults } };

    fn faults(&self) -> u64 {
        self.faults
    }

    fn write(&mut self, from: &[u8]) -> Result<usize, Failed> {
        match write_through(&mut self.writer, from) {
            Some(count) => Ok(count),
            None => {
                self.faults = self.faults.saturating_add(1);
                Err(Failed)
            }
        }
    }
}
