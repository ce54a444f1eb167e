//! Split: a new seat has the first of an old one's numbers.
ghost use Rattle.std.specs.Prelude.{◌≡◌, []};
ghost use Rattle.desk.specs.Steps.{kept_half, given_half};
ghost use Rattle.desk.specs.Views.{IsAlone};
ghost use Rattle.desk.specs.Views.Stage.{Idle};

use super::{Desk, Token};
use crate::view::View;
use atomic_table::Split;
use medium_model::Medium;

/// How a view is cut in two.
pub struct FirstNumber;

impl Split<View> for FirstNumber {
    ghost use Rattle.desk.specs.Steps.{kept_half as seat_kept, given_half as seat_given};

    ghost left = { seat_kept };

    ghost right = { seat_given };
}

impl<M: Medium> Desk<M> {
    pub(super) fn split(&self, token: &mut Token<M>) -> Token<M>
        requires table { token.old.table_id ≡ self.now.table.shared.table_id }
        requires idle { IsAlone Idle token.old.me.0 }
        ensures table { token.new.table_id ≡ token.old.table_id }
        ensures kept { token.new.me ≡ (kept_half token.old.me.0, token.old.me.1) }
        ensures given_table { result.table_id ≡ token.old.table_id }
        ensures given { result.me ≡ (given_half token.old.me.0, []) }
    {
        self.table.shared.split_seat::<FirstNumber>(token)
    }
}
