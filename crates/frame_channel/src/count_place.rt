//! The four bytes of a count.
ghost use Rattle.std.specs.Prelude.{◌≡◌, ℕ};
ghost use Rattle.frame_channel.specs.CountPlaces.{SaysNumber, StandsInCount, count_leaves, count_left};

use avl_values::FaultKind;
use field_machine::{Cursor, Left, Machine, Place};

/// Before a count, which is of any value, or after it.
#[derive(Clone, Copy)]
pub enum CountPlace {
    Count,
    End(u32),
}

/// Takes the bytes of a count one at a time, and then says it.
pub type CountMachine = Machine<CountPlace>;

impl Place for CountPlace {
    ghost use Rattle.std.specs.Prelude.{ℕ};

    type Head = u32;

    ghost Value = { ℕ };

    ghost says = { SaysNumber };

    ghost left_of = { count_left };

    ghost stands = { StandsInCount };

    ghost leaves = { count_leaves };

    fn left(self) -> Left<u32> {
        match self {
            CountPlace::Count => Left::Field(4),
            CountPlace::End(count) => Left::Nothing(count),
        }
    }
}

impl Cursor for CountPlace {
    fn next(self, value: u64) -> Result<CountPlace, FaultKind> {
        match self {
            CountPlace::Count => Ok(CountPlace::End(value as u32)),
            CountPlace::End(_) => Ok(self),
        }
    }
}
