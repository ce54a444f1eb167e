//! Draw: the seat takes the next ticket.
ghost use Rattle.std.specs.Prelude.{◌≡◌};
ghost use Rattle.desk.specs.Steps.{Drawn};
ghost use Rattle.desk.specs.Views.{IsAlone};
ghost use Rattle.desk.specs.Views.Stage.{Idle};

use super::{Desk, TICKET, Token};
use crate::view::View;
use atomic_table::Play;
use medium_model::Medium;
use shelf::Shelf;

/// The move of a draw.
pub struct Draw;

impl<M: Medium> Play<Option<Shelf<M>>, View> for Draw {
    ghost use Rattle.desk.specs.Steps.{Drawn as SeatDrawn};

    ghost then = { λ s m n r. SeatDrawn m n r };
}

impl<M: Medium> Desk<M> {
    pub(super) fn draw(&self, token: &mut Token<M>) -> u64
        requires table { token.old.table_id ≡ self.now.table.shared.table_id }
        requires idle { IsAlone Idle token.old.me.0 }
        ensures table { token.new.table_id ≡ token.old.table_id }
        ensures drawn { Drawn token.old.me result token.new.me }
    {
        self.table.shared.fetch_add::<Draw>(token, TICKET, 1)
    }
}
