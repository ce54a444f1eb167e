ghost use Rattle.std.specs.Prelude.{◌≡◌, None};

use avl_values::Failed;
use std::io::Read;
use text_streams::Source;

/// A file, or any reader, as a text. It tells nothing of its bytes or its name.
#[derive(Drop)]
pub struct FileText<R> {
    reader: R,
    pub faults: u64,
}

impl<R: Read + Drop> FileText<R> {
    /// The text of a reader, of which nothing was read and nothing failed yet.
    pub fn new(reader: R) -> FileText<R>
        ensures { result.faults ≡ 0 }
    {
        FileText { reader, faults: 0 }
    }
}

impl<R: Read + Drop> Source for FileText<R> {
    ghost state = { λ s. record { left = None; name = None; faults = s.faults } };

    fn faults(&self) -> u64 {
        self.faults
    }

    fn read(&mut self, into: &mut [u8]) -> Result<usize, Failed> {
        match self.reader.read(into) {
            Ok(count) => Ok(count),
            Err(_) => {
                self.faults = self.faults.saturating_add(1);
                Err(Failed)
            }
        }
    }
}
