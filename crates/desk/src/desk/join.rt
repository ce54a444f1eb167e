//! Join: one seat has both views, and then, by a load, the longer of both histories.
ghost use Rattle.std.specs.Prelude.{◌≡◌, ◌++◌, []};
ghost use Rattle.desk.specs.Seen.{AreJoined};
ghost use Rattle.desk.specs.Views.{IsAlone, view};
ghost use Rattle.desk.specs.Views.Stage.{Idle};

use super::{Desk, SERVING, Token};
use crate::view::View;
use atomic_table::{Join, Play};
use medium_model::Medium;
use shelf::Shelf;

/// How two views are made one.
pub struct SideBySide;

impl Join<View> for SideBySide {
    ghost use Rattle.desk.specs.Steps.{both_views};
    ghost use Rattle.desk.specs.Views.{spent as seat_spent};

    ghost both = { both_views };

    ghost spent = { seat_spent };
}

/// The move of the load after it.
pub struct Settle;

impl<M: Medium> Play<Option<Shelf<M>>, View> for Settle {
    ghost use Rattle.desk.specs.Steps.{Settled};

    ghost then = { λ s m n r. Settled m r };
}

impl<M: Medium> Desk<M> {
    pub(super) fn join_tokens(&self, token: &mut Token<M>, other: Token<M>)
        requires table { token.old.table_id ≡ self.now.table.shared.table_id }
        requires other_table { other.table_id ≡ self.now.table.shared.table_id }
        requires idle { IsAlone Idle token.old.me.0 }
        requires other_idle { IsAlone Idle other.me.0 }
        requires other_bare { other.me.1 ≡ [] }
        ensures table { token.new.table_id ≡ token.old.table_id }
        ensures settled { token.new.me ≡ (view token.old.me.0.opening token.new.me.0.seen (token.old.me.0.numbers ++ other.me.0.numbers) Idle 0, token.old.me.1) }
        ensures joined { AreJoined token.old.me.0.seen token.old.me.0.numbers other.me.0.seen other.me.0.numbers token.new.me.0.seen }
    {
        let shared = &self.table.shared;
        shared.join_seat::<SideBySide>(token, other);
        shared.load::<Settle>(token, SERVING);
    }
}
