//! Publish: the call is in the history, the shelf is at home, and the turn is passed on. Seats that sleep with a ticket look again; where
//! there is none, one of those that sleep without a ticket does.
ghost use Rattle.std.specs.Prelude.{◌≡◌, [], ◌∷◌, ◌++◌, Some};
ghost use Rattle.shelf.specs.Calls.{brought_by, no_mark};
ghost use Rattle.shelf.specs.Entries.{entry, IsLegalLog, StandsAfter};
ghost use Rattle.shelf.specs.Shelf.{ShelfView, front};
ghost use Rattle.desk.specs.Desks.{opening};
ghost use Rattle.desk.specs.Steps.{Published};
ghost use Rattle.desk.specs.Views.{IsAlone, first_number};
ghost use Rattle.desk.specs.Views.Stage.{Holding};

use super::{Desk, SERVING, TICKET, Token};
use crate::view::View;
use atomic_table::Play;
use avl_values::Imei;
use medium_model::Medium;
use shelf::{AdmitFault, Receipt, Shelf};
use std::marker::{Brand, PhantomData};

/// Names the entry of a call. Each call of `publish` picks it.
pub trait NamesEntry {
    ghost use Rattle.shelf.specs.Entries.{Entry};

    ghost entry: { Entry };
}

impl NamesEntry for Brand {
    ghost use Rattle.desk.specs.Steps.{no_entry};

    ghost entry = { no_entry };
}

/// The move of a call that is entered.
pub struct Publish<E> {
    marker: PhantomData<E>,
}

impl<M: Medium, E: NamesEntry> Play<Option<Shelf<M>>, View> for Publish<E> {
    ghost use Rattle.desk.specs.Steps.{Published as SeatPublished};

    ghost then = { λ s m n r. SeatPublished E.entry m r };
}

impl<M: Medium> Desk<M> {
    pub(super) fn publish<E: NamesEntry>(
        &self,
        token: &mut Token<M>,
        imei: Imei,
        body: &[u8],
        answer: &Result<Receipt, AdmitFault>,
    )
        requires said { E.entry ≡ entry (first_number token.old.me.0.numbers) (brought_by no_mark imei body.now answer.now) }
        requires table { token.old.table_id ≡ self.now.table.shared.table_id }
        requires holding { IsAlone Holding token.old.me.0 }
        requires shelf { (shelf : ShelfView) × (token.old.me.1 ≡ (0, Some shelf) ∷ []) × StandsAfter (opening self.now) (token.old.me.0.seen ++ E.entry ∷ []) (front shelf) }
        requires legal { IsLegalLog (opening self.now) (token.old.me.0.seen ++ E.entry ∷ []) }
        ensures table { token.new.table_id ≡ token.old.table_id }
        ensures published { Published E.entry token.old.me token.new.me }
    {
        // The entry is made of these arguments.
        let _ = imei;
        let _ = body;
        let _ = answer;
        let shared = &self.table.shared;
        let served = shared.fetch_add::<Publish<E>>(token, SERVING, 1);
        if shared.peek(TICKET) == served.wrapping_add(1) {
            // Nobody has a ticket.
            shared.wake_one(TICKET);
        } else {
            shared.wake_all(SERVING);
        }
    }
}
