ghost use Rattle.std.specs.Prelude.{IfSome};
ghost use Rattle.desk_rows.specs.Seats.{AreSeats, StandsForSeats};

use desk::{Desk, Seat};
use medium::MemoryMedium;

/// One of these seats.
pub fn next_seat(
    desk: &Desk<MemoryMedium>,
    seats: &mut Vec<Seat<MemoryMedium>>,
) -> Option<Seat<MemoryMedium>>
    requires { AreSeats desk.now seats.old.items }
    ensures seat { IfSome result (StandsForSeats desk.now 1) }
    ensures left { AreSeats desk.now seats.new.items }
{
    let _ = desk;
    seats.pop()
}
