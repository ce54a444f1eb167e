//! Give back: the holder of the turn puts the shelf into the slot again.
ghost use Rattle.std.specs.Prelude.{◌≡◌, [], ◌∷◌, None, Some};

use super::{Desk, SHELF, Token};
use medium_model::Medium;
use shelf::Shelf;

impl<M: Medium> Desk<M> {
    pub(super) fn give_back(&self, token: &mut Token<M>, shelf: Shelf<M>)
        requires table { token.old.table_id ≡ self.now.table.shared.table_id }
        requires empty { token.old.me.1 ≡ (0, None) ∷ [] }
        ensures table { token.new.table_id ≡ token.old.table_id }
        ensures back { token.new.me ≡ (token.old.me.0, (0, Some shelf) ∷ []) }
    {
        match self.table.shared.exchange(token, SHELF, Some(shelf)) {
            None => {}
            Some(_) => unreachable!(),
        }
    }
}
