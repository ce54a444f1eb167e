ghost use Rattle.std.specs.Prelude.{◌≡◌, ◌↔◌, ◌≤◌, IsSome, IsTrue};
ghost use Rattle.medium_model.specs.CallsLeft.{CallsLeft, unknown, unlimited, after, exhausted};
ghost use Rattle.medium_model.specs.State.{MediumState, IsRestarted};

use crate::Medium;

/// What one write leaves that a power loss met, or that no sync followed (this project's own).
#[derive(Clone, Copy, Debug, PartialEq, Eq)]
pub enum Tear {
    /// Nothing of it.
    Keep,
    /// Its bytes.
    New,
    /// `00` in its whole range.
    Zero,
    /// `A5` in its whole range.
    AllOpen,
    /// The first half of its bytes, the number rounded down.
    Half,
}

/// A medium whose power can be cut at a chosen call.
pub trait Bench: Medium {
    /// The next `calls` calls of `len`, `read`, `write` and `sync` pass. The call after them is the power loss: it fails, and
    /// so does each later one until `restart`.
    fn arm(&mut self, calls: u64, tear: Tear)
        requires unarmed { (Self.state self.old).left ≡ unlimited }
        ensures armed { Self.state self.new ≡ record (Self.state self.old) { left = after calls } };

    /// Whether the power is lost: from the failed call to the `restart`.
    fn ran_out(&self) -> bool
        ensures { IsTrue result ↔ ((Self.state self.now).left ≡ exhausted) };

    /// The power comes back: it reads as one of the images that the power loss might have left, and is unarmed.
    fn restart(&mut self)
        ensures image { IsRestarted (Self.state self.old).content (Self.state self.new).content }
        ensures unarmed { (Self.state self.new).left ≡ unlimited }
        ensures ready { (Self.state self.old).ready ≤ (Self.state self.new).ready }
        ensures faults { (Self.state self.new).faults ≡ (Self.state self.old).faults };

    /// It tells its content.
    ghost tells: { (b : Self) → IsSome (Self.state b).content };

    /// It tells how many calls pass.
    ghost counts: { (b : Self) → (Self.state b).left ≡ unknown → ⊥ };
}
