ghost use Rattle.std.specs.Prelude.{◌≡◌};
ghost use Rattle.desk.specs.Desks.{IsSeatOf};

use super::{Desk, Seat};
use avl_values::Imei;
use medium_model::Medium;
use shelf::{Admit, AdmitFault, Receipt};
use std::sync::Wait;

/// A seat at its desk, to which a session admits as to a shelf. Each call may wait for its turn.
#[derive(Drop)]
pub struct DeskSeat<'a, R: Wait, M: Medium> {
    rt: &'a R,
    desk: &'a Desk<M>,
    seat: Seat<M>,
    ghost of_desk: { IsSeatOf desk.now seat },
}

impl<'a, R: Wait, M: Medium> DeskSeat<'a, R, M> {
    /// Sits down at the desk that gave this seat. It makes no call and takes no memory.
    pub fn new(rt: &'a R, desk: &'a Desk<M>, seat: Seat<M>) -> DeskSeat<'a, R, M>
        requires { IsSeatOf desk.now seat }
        ensures desk { result.desk.now ≡ desk.now }
        ensures seat { result.seat ≡ seat }
    {
        DeskSeat { rt, desk, seat }
    }

    /// The seat, which has seen all calls that were made over it.
    pub fn into_seat(self) -> Seat<M>
        ensures seat { result ≡ self.entry.seat }
        ensures of_desk { IsSeatOf self.entry.desk.now result }
    {
        let DeskSeat {
            rt: _,
            desk: _,
            seat,
        } = self;
        seat
    }
}

impl<'a, R: Wait, M: Medium> Admit for DeskSeat<'a, R, M> {
    ghost use Rattle.std.specs.Prelude.{Some};
    ghost use Rattle.shelf.specs.Calls.{no_mark};
    ghost use Rattle.shelf.specs.Entries.{all_brought, calls_by};
    ghost use Rattle.desk.specs.Desks.{seen, numbers};
    ghost use Rattle.desk.specs.Sessions.{SeatLeaves, tells-call};

    ghost leaves = { λ s imei body result t. SeatLeaves s.desk.now s.seat imei body result t.desk.now t.seat };

    // The calls under its seat's numbers, in the history that it has seen.
    ghost calls = { λ s. Some (all_brought (calls_by (numbers s.seat) (seen s.seat))) };

    ghost mark = { λ _. no_mark };

    ghost tells = { λ s imei body result t left. tells-call s.desk.now s.seat imei body result t.desk.now t.seat left };

    fn admit(&mut self, imei: Imei, body: &[u8]) -> Result<Receipt, AdmitFault> {
        self.desk.admit(self.rt, &mut self.seat, imei, body)
    }
}
