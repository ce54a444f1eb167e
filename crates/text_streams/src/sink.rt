ghost use Rattle.std.specs.Prelude.{◌≡◌, ◌<◌, IfOk, length};
ghost use Rattle.std.specs.Io.{WritesAtMost};
ghost use Rattle.std.specs.Io.KnownBytes.{WriteAppends};
ghost use Rattle.avl_values.specs.Causes.{HasCause};
ghost use Rattle.text_streams.specs.States.{SinkState};

use avl_values::Failed;

/// Where text is written.
pub trait Sink {
    /// What contracts see of it: the bytes that were written, and how often it has failed.
    ghost state: { Self → SinkState };

    /// How often it has failed. The count stays at its type's end.
    fn faults(&self) -> u64
        ensures { result ≡ (state self.now).faults };

    /// Puts bytes from the front of `from` last among those written, and says how many: at least one of a piece that
    /// isn't empty. `Failed` changes nothing of what was written.
    fn write(&mut self, from: &[u8]) -> Result<usize, Failed>
        ensures bound { WritesAtMost result from.now }
        ensures some { 0 < length from.now → IfOk result (λ n. 0 < n) }
        ensures bytes { WriteAppends (state self.old).written (state self.new).written result from.now }
        ensures cause { HasCause (state self.old).faults (state self.new).faults result };
}
