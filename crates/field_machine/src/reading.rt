//! A place that goes on by a field's bytes.
ghost use Rattle.std.specs.Prelude.{◌≡◌, ◌+◌, ◌≤◌, length, IfOk};
ghost use Rattle.layout.specs.Rows.{Rows};
ghost use Rattle.field_machine.specs.declared.left.Left.{Left};
ghost use Rattle.field_machine.specs.declared.left.Left.TheVariants as left;
ghost use Rattle.field_machine.specs.Places.{Follows, turns};

use crate::place::Place;
use avl_values::FaultKind;

/// A place that takes the next field as its bytes, and may keep what it says.
pub trait Reading: Place {
    /// What follows this field, or the rule that the field breaks.
    fn read(self, field: &[u8]) -> Result<Self, FaultKind>
        requires { Self.left_of self ≡ left.Field (length field.now) }
        ensures follows { (here : Rows Self.Value) → Self.stands self here → Follows Self.stands here field.now result }
        ensures turns { IfOk result (λ next. turns (Self.left_of next) + turns (Self.left_of self) ≤ 1) };
}
