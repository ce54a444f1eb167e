//! A place between an item's fields.
ghost use Rattle.std.specs.Prelude.{◌≡◌};
ghost use Rattle.layout.specs.Rows.{Rows};
ghost use Rattle.field_machine.specs.declared.left.Left.{Left};
ghost use Rattle.field_machine.specs.Places.{Leaves};

use crate::left::Left;

/// Where in an item the next field stands. It keeps only what the later fields depend on.
pub trait Place: Copy {
    /// What the code says of a whole item.
    type Head: Copy;

    /// What a whole item says.
    ghost Value: { Type 0 };

    /// The code says so of an item that says this.
    ghost says: { Self.Head → Value → Type 0 };

    /// What is left here.
    ghost left_of: { Self → Left Self.Head };

    /// These rows are those that are left to be judged here.
    ghost stands: { Self → Rows Value → Type 0 };

    /// The next field's width, or what the item says at its end.
    fn left(self) -> Left<Self::Head>
        ensures { result ≡ left_of self };

    /// What is left is what the rows say.
    ghost leaves: { (c : Self) → (here : Rows Value) → stands c here → Leaves says (left_of c) here };
}
