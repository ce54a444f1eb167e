//! An item's bytes, judged one at a time.
ghost use Rattle.std.specs.Prelude.{◌≡◌, ◌≤◌, ◌<◌, ◌+◌, ℕ, List, [], ◌∷◌, ◌++◌, length};
ghost use Rattle.layout.specs.Rows.{Rows, judge, body};

use crate::cursor::Cursor;
use crate::left::Left;
use crate::verdict::Scan;
use avl_values::{Fault, FaultKind};
use layout::Steps;
use std::sync::ledger::Ledger;

/// Judges the bytes of a body of a known length, one at a time, and holds none of them. After each byte it returns what
/// `scan_with` returns for all bytes so far.
#[derive(Clone, Copy)]
pub struct Machine<C> {
    total: u32,
    taken: u32,
    start: u32,
    cursor: C,
    missing: u64,
    value: u64,
}

impl<C: Cursor> Machine<C> {
    ghost use Rattle.field_machine.specs.declared.left.Left.TheVariants as left;
    ghost use Rattle.field_machine.specs.Machines.{Begins, HasTaken, IsTaking, GoesOn, Enters, taken_of};
    ghost use Rattle.field_machine.specs.Verdicts.{IsVerdict};

    /// A machine for a body of `total` bytes that begins at this place, before the first.
    pub fn new(total: u32, first: C) -> Machine<C>
        requires { Begins (C.left_of first) total }
        ensures { (rows : Rows C.Value) → C.stands first rows → HasTaken C.left_of C.stands result total rows [] }
    {
        match first.left() {
            Left::Field(missing) => Machine {
                total,
                taken: 0,
                start: 0,
                cursor: first,
                missing,
                value: 0,
            },
            Left::Nothing(_) => unreachable!(),
        }
    }

    /// How many bytes it has taken, also after the last.
    pub fn taken(&self) -> u32
        ensures is { result ≡ taken_of self.now }
        ensures all { (total : ℕ) → (rows : Rows C.Value) → (bytes : List ℕ) → HasTaken C.left_of C.stands self.now total rows bytes → result ≡ length bytes }
    {
        self.taken
    }

    /// Takes the next byte, in one step. The answer is the verdict on all bytes so far; while it is More, the machine goes on.
    pub fn push<L: Ledger>(&mut self, byte: u8, steps: &mut Steps<L>) -> Scan<C::Head>
        requires { IsTaking C.left_of C.stands self.old }
        ensures answers { (total : ℕ) → (rows : Rows C.Value) → (bytes : List ℕ) → HasTaken C.left_of C.stands self.old total rows bytes → IsVerdict C.says total result (judge (body total rows) 0 (bytes ++ byte ∷ [])) }
        ensures goes_on { (total : ℕ) → (rows : Rows C.Value) → (bytes : List ℕ) → HasTaken C.left_of C.stands self.old total rows bytes → GoesOn C.left_of C.stands self.new total rows (bytes ++ byte ∷ []) result }
        ensures counted { taken_of self.new ≡ taken_of self.old + 1 }
        ensures step { steps.new ≡ steps.old + 1 }
    {
        steps.tick();
        self.take(byte)
    }

    #[inline(always)]
    fn take(&mut self, byte: u8) -> Scan<C::Head>
        requires { IsTaking C.left_of C.stands self.old }
        ensures answers { (total : ℕ) → (rows : Rows C.Value) → (bytes : List ℕ) → HasTaken C.left_of C.stands self.old total rows bytes → IsVerdict C.says total result (judge (body total rows) 0 (bytes ++ byte ∷ [])) }
        ensures goes_on { (total : ℕ) → (rows : Rows C.Value) → (bytes : List ℕ) → HasTaken C.left_of C.stands self.old total rows bytes → GoesOn C.left_of C.stands self.new total rows (bytes ++ byte ∷ []) result }
        ensures counted { taken_of self.new ≡ taken_of self.old + 1 }
    {
        self.taken += 1;
        self.missing -= 1;
        self.value = self.value.wrapping_mul(256).wrapping_add(byte as u64);
        if self.missing > 0 {
            return Scan::More;
        }
        match self.cursor.next(self.value) {
            Err(kind) => Scan::Broken(Fault {
                kind,
                place: self.start,
            }),
            Ok(next) => match Machine::at_field(self.total, self.taken, next) {
                Err(verdict) => verdict,
                Ok(machine) => {
                    *self = machine;
                    Scan::More
                }
            },
        }
    }

    /// The machine at a field, past one of no bytes.
    #[inline(always)]
    fn at_field(total: u32, place: u32, cursor: C) -> Result<Machine<C>, Scan<C::Head>>
        requires { place ≤ total }
        ensures { Enters C.left_of C.says C.stands total place cursor result }
    {
        match cursor.left() {
            Left::Nothing(_) => Machine::at_some_field(total, place, cursor),
            Left::Field(width) => {
                if width > 0 {
                    return Machine::at_some_field(total, place, cursor);
                }
                match cursor.next(0) {
                    Err(kind) => Err(Scan::Broken(Fault { kind, place })),
                    Ok(next) => Machine::at_some_field(total, place, next),
                }
            }
        }
    }

    /// The machine at a field of at least one byte, or the verdict at the end of the body or of its length.
    #[inline(always)]
    fn at_some_field(total: u32, place: u32, cursor: C) -> Result<Machine<C>, Scan<C::Head>>
        requires { place ≤ total }
        ensures { (C.left_of cursor ≡ left.Field 0 → ⊥) → Enters C.left_of C.says C.stands total place cursor result }
    {
        let room = total - place;
        match cursor.left() {
            Left::Nothing(head) => {
                if room > 0 {
                    Err(Scan::Broken(Fault {
                        kind: FaultKind::Excess,
                        place,
                    }))
                } else {
                    Err(Scan::Whole(head))
                }
            }
            Left::Field(width) => {
                if width > u64::from(room) {
                    Err(Scan::Broken(Fault {
                        kind: FaultKind::Overrun,
                        place,
                    }))
                } else {
                    Ok(Machine {
                        total,
                        taken: place,
                        start: place,
                        cursor,
                        missing: width,
                        value: 0,
                    })
                }
            }
        }
    }
}
