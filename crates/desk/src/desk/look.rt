//! Look: where it is the seat's turn, it sees the whole history and holds the shelf.
ghost use Rattle.std.specs.Prelude.{◌≡◌, []};
ghost use Rattle.desk.specs.Steps.{Looked};
ghost use Rattle.desk.specs.Views.{IsAlone};
ghost use Rattle.desk.specs.Views.Stage.{Waiting};

use super::{Desk, SERVING, Token};
use crate::view::View;
use atomic_table::Play;
use medium_model::Medium;
use shelf::Shelf;

/// The move of a look.
pub struct Look;

impl<M: Medium> Play<Option<Shelf<M>>, View> for Look {
    ghost use Rattle.desk.specs.Steps.{Looked as SeatLooked};

    ghost then = { λ s m n r. SeatLooked m n r };
}

impl<M: Medium> Desk<M> {
    pub(super) fn look(&self, token: &mut Token<M>) -> u64
        requires table { token.old.table_id ≡ self.now.table.shared.table_id }
        requires waiting { IsAlone Waiting token.old.me.0 }
        requires bare { token.old.me.1 ≡ [] }
        ensures table { token.new.table_id ≡ token.old.table_id }
        ensures looked { Looked token.old.me result token.new.me }
    {
        self.table.shared.load::<Look>(token, SERVING)
    }
}
