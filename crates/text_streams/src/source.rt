ghost use Rattle.std.specs.Prelude.{◌≡◌};
ghost use Rattle.std.specs.Io.{ReadsAtMost};
ghost use Rattle.std.specs.Io.KnownBytes.{ReadConsumes};
ghost use Rattle.avl_values.specs.Causes.{HasCause};
ghost use Rattle.text_streams.specs.States.{SourceState};

use avl_values::Failed;

/// A text that is read piece by piece.
pub trait Source {
    /// What contracts see of it: the bytes that are left, its name, and how often it has failed.
    ghost state: { Self → SourceState };

    /// How often it has failed. The count stays at its type's end.
    fn faults(&self) -> u64
        ensures { result ≡ (state self.now).faults };

    /// Takes bytes from the front of those that are left, and says how many: 0 exactly at the end, or where `into` is
    /// empty. `Failed` changes nothing of what is left.
    fn read(&mut self, into: &mut [u8]) -> Result<usize, Failed>
        ensures bound { ReadsAtMost result into.new }
        ensures bytes { ReadConsumes (state self.old).left (state self.new).left result into.new }
        ensures cause { HasCause (state self.old).faults (state self.new).faults result }
        ensures same_name { (state self.new).name ≡ (state self.old).name };
}
