//! A place that goes on by a field's number alone.
ghost use Rattle.std.specs.Prelude.{◌≡◌, ◌+◌, ◌≤◌, ℕ, List, length, IfOk};
ghost use Rattle.layout.specs.Rows.{Rows};
ghost use Rattle.field_machine.specs.declared.left.Left.{Left};
ghost use Rattle.field_machine.specs.declared.left.Left.TheVariants as left;
ghost use Rattle.field_machine.specs.Places.{FitsIn, Reads, Follows, turns};

use crate::place::Place;
use avl_values::FaultKind;

/// A place from which the number that the next field spells is enough to go on.
pub trait Cursor: Place {
    /// What follows a field of this value, or the rule that the field breaks.
    fn next(self, value: u64) -> Result<Self, FaultKind>
        requires { FitsIn (Self.left_of self) value }
        ensures follows { (here : Rows Self.Value) → (field : List ℕ) → Self.stands self here → Self.left_of self ≡ left.Field (length field) → Reads field value → Follows Self.stands here field result }
        ensures turns { IfOk result (λ next. turns (Self.left_of next) + turns (Self.left_of self) ≤ 1) };
}
