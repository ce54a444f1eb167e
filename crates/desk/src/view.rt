use medium_model::Medium;
use shelf::Shelf;
use std::marker::Model;
use std::snapshot::Snapshot;

/// What a seat knows. No value of it is made.
pub struct View;

impl Model for View {
    ghost use Rattle.desk.specs.Views.{View as SeatView, spent};

    ghost Value = { SeatView };

    ghost view = { λ v. spent };
}

/// What the table is told when it is made. It has no bytes of the shelf.
#[derive(Drop)]
pub struct Opening<M: Medium> {
    pub shelf: Snapshot<Shelf<M>>,
    pub seats: u64,
}
