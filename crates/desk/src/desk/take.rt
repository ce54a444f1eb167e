//! Take: the holder of the turn takes the shelf out of the slot.
ghost use Rattle.std.specs.Prelude.{◌≡◌, [], ◌∷◌, None, Some};
ghost use Rattle.shelf.specs.Shelf.{ShelfView};

use super::{Desk, SHELF, Token};
use medium_model::Medium;
use shelf::Shelf;

impl<M: Medium> Desk<M> {
    pub(super) fn take(&self, token: &mut Token<M>) -> Shelf<M>
        requires table { token.old.table_id ≡ self.now.table.shared.table_id }
        requires holds { (shelf : ShelfView) × (token.old.me.1 ≡ (0, Some shelf) ∷ []) }
        ensures table { token.new.table_id ≡ token.old.table_id }
        ensures shelf { token.old.me.1 ≡ (0, Some result) ∷ [] }
        ensures empty { token.new.me ≡ (token.old.me.0, (0, None) ∷ []) }
    {
        self.table.shared.exchange(token, SHELF, None).unwrap()
    }
}
