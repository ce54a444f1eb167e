//! A cursor over bytes.
use crate::cursor::Cursor;
use crate::left::Left;
use crate::place::Place;
use crate::reading::Reading;
use avl_values::FaultKind;
use layout::number;

/// A cursor that reads each field's number from its bytes.
#[derive(Clone, Copy)]
pub struct ByNumber<C>(pub C);

impl<C: Cursor> Place for ByNumber<C> {
    type Head = C::Head;

    ghost Value = { C.Value };

    ghost says = { C.says };

    ghost left_of = { λ c. C.left_of c.0 };

    ghost stands = { λ c here. C.stands c.0 here };

    ghost leaves = { λ c here at. C.leaves c.0 here at };

    #[inline(always)]
    fn left(self) -> Left<C::Head> {
        self.0.left()
    }
}

impl<C: Cursor> Reading for ByNumber<C> {
    #[inline(always)]
    fn read(self, field: &[u8]) -> Result<ByNumber<C>, FaultKind> {
        match self.0.next(number(field)) {
            Ok(next) => Ok(ByNumber(next)),
            Err(kind) => Err(kind),
        }
    }
}
