ghost use Rattle.std.specs.Prelude.{◌≡◌, false};
ghost use Rattle.desk_rows.specs.Seats.{StandsForSeats};

use crate::packets::{admit_example, admit_example_at, over_nothing};
use crate::seats::next_seat;
use desk::{Desk, DeskSeat, Seat};
use medium::MemoryMedium;
use shelf::{Admit, Shelf};
use std::alloc::Global;
use std::sync::Wait;
use std::test::Fail;

// The example twice at a seat.
fn example_twice<R: Wait>(
    rt: &R,
    alloc: Global,
    desk: &Desk<MemoryMedium>,
    seat: &mut Seat<MemoryMedium>,
) -> Option<((u64, u64), (u64, u64))>
    requires { StandsForSeats desk.now 1 seat.old }
    ensures { StandsForSeats desk.now 1 seat.new }
{
    let first = admit_example_at(rt, alloc, desk, seat)?;
    let again = admit_example_at(rt, alloc, desk, seat)?;
    Some((first, again))
}

// The same at the one seat of a desk, and how many records the closed shelf lists.
fn at_one_seat<R: Wait>(
    rt: &R,
    alloc: Global,
    shelf: Shelf<MemoryMedium>,
) -> Option<(((u64, u64), (u64, u64)), usize)>
    requires { shelf.down ≡ false }
{
    let Ok((desk, mut seats)) = Desk::new(alloc, shelf, 1) else {
        return None;
    };
    let mut seat = next_seat(&desk, &mut seats)?;
    let places = example_twice(rt, alloc, &desk, &mut seat)?;
    let shelf = desk.close(seat);
    Some((places, shelf.list().len()))
}

#[test]
fn an_example_twice_at_one_seat(rt: HostRuntime) -> Result<(), Fail> {
    let alloc = rt.alloc();
    let shelf = over_nothing(alloc, 8).ok_or("a shelf")?;
    assert!(rt; !shelf.is_down());
    assert!(rt; at_one_seat(&rt, alloc, shelf) == Some((((0, 1), (0, 1)), 2)));
    Ok(())
}

// The shelf of a desk whose two seats were joined.
fn through_a_desk(alloc: Global, shelf: Shelf<MemoryMedium>) -> Option<Shelf<MemoryMedium>>
    requires { shelf.down ≡ false }
{
    let Ok((desk, mut seats)) = Desk::new(alloc, shelf, 2) else {
        return None;
    };
    let second = seats.pop()?;
    let first = seats.pop()?;
    let seat = desk.join(first, second);
    Some(desk.close(seat))
}

#[test]
fn a_desk_with_no_calls_leaves_the_list(rt: HostRuntime) -> Result<(), Fail> {
    let alloc = rt.alloc();
    let mut shelf = over_nothing(alloc, 12).ok_or("a shelf")?;
    assert!(rt; admit_example(alloc, &mut shelf) == Some((0, 1)));
    assert!(rt; !shelf.is_down());
    let mut shelf = through_a_desk(alloc, shelf).ok_or("a desk")?;
    assert_eq!(rt; shelf.list().len(), 2);
    assert!(rt; admit_example(alloc, &mut shelf) == Some((0, 1)));
    Ok(())
}

// A session's example at a desk.
fn by_a_session<R: Wait>(rt: &R, alloc: Global, shelf: Shelf<MemoryMedium>) -> Option<(u64, u64)>
    requires { shelf.down ≡ false }
{
    let Ok((desk, mut seats)) = Desk::new(alloc, shelf, 1) else {
        return None;
    };
    let mut at = DeskSeat::new(rt, &desk, seats.pop()?);
    admit_example(alloc, &mut at)
}

#[test]
fn a_session_admits_as_to_a_shelf(rt: HostRuntime) -> Result<(), Fail> {
    let alloc = rt.alloc();
    let shelf = over_nothing(alloc, 8).ok_or("a shelf")?;
    assert!(rt; !shelf.is_down());
    assert!(rt; by_a_session(&rt, alloc, shelf) == Some((0, 1)));
    Ok(())
}
