ghost use Rattle.std.specs.Prelude.{◌≡◌, false, []};
ghost use Rattle.desk.specs.Views.{IsAlone};
ghost use Rattle.desk.specs.Views.Stage.{Idle};

use crate::rule::Turns;
use crate::view::{Opening, View};
use atomic_table::Table;
use medium_model::Medium;
use shelf::Shelf;
use std::alloc::Global;

mod draw;
mod give_back;
mod join;
mod look;
mod publish;
mod session;
mod split;
mod take;
mod turns;

pub use session::DeskSeat;

/// The word that says whose turn it is: how many calls had theirs, modulo 2^64.
const SERVING: usize = 0;
/// The word with the next ticket, modulo 2^64.
const TICKET: usize = 1;
/// The slot in which the shelf lies while nobody holds it.
const SHELF: usize = 0;

type Token<M> = atomic_table::Seat<Option<Shelf<M>>, View>;

/// Turns at one shelf, for 1 to 64 seats.
#[derive(Drop)]
pub struct Desk<M: Medium> {
    table: Table<Option<Shelf<M>>, View, Opening<M>, Turns, Global>,
    ghost sized: { (table.shared.table_id.words ≡ 2) × (table.shared.table_id.slots ≡ 1) },
    ghost up: { table.shared.key.shelf.value.down ≡ false },
}

/// A place at a desk: what its holder has seen of the history, and the numbers that its calls stand under. It has no bytes.
#[derive(Drop)]
pub struct Seat<M: Medium> {
    token: Token<M>,
    ghost bare: { token.me.1 ≡ [] },
    ghost alone: { IsAlone Idle token.me.0 },
}
