use crate::view::{Opening, View};
use atomic_table::TableRule;
use medium_model::Medium;
use shelf::Shelf;

/// What holds of the desk between any two steps.
pub struct Turns;

impl<M: Medium> TableRule<Option<Shelf<M>>, View, Opening<M>> for Turns {
    ghost use Rattle.shelf.specs.Shelf.{front};
    ghost use Rattle.desk.specs.Rule.{HasHistory};
    ghost use Rattle.desk.specs.Views.{first_view};

    ghost holds = { λ k. HasHistory (front k.shelf.value) k.seats };

    ghost first = { λ k. first_view (front k.shelf.value) k.seats };
}
