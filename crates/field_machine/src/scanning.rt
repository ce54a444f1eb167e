//! An item's first bytes, judged.
ghost use Rattle.std.specs.Prelude.{◌≡◌, ◌≤◌, length};
ghost use Rattle.layout.specs.Rows.{Rows, judge, body};
ghost use Rattle.field_machine.specs.Verdicts.{IsVerdict};

use crate::by_number::ByNumber;
use crate::cursor::Cursor;
use crate::left::Left;
use crate::reading::Reading;
use crate::verdict::Scan;
use avl_values::{Fault, FaultKind};

/// Judges the first bytes of a body of `total` bytes that begins at this place, field by field. Each byte is read once.
pub fn scan_with<R: Reading>(have: &[u8], total: u32, first: R) -> Scan<R::Head>
    requires { length have.now ≤ total }
    ensures { (rows : Rows R.Value) → R.stands first rows → IsVerdict R.says total result (judge (body total rows) 0 have.now) }
{
    let mut cursor = first;
    let mut rest = have;
    let mut place: u32 = 0;
    'fields: loop {
        let room = total - place;
        match cursor.left() {
            Left::Nothing(head) => {
                if room > 0 {
                    return Scan::Broken(Fault {
                        kind: FaultKind::Excess,
                        place,
                    });
                }
                return Scan::Whole(head);
            }
            Left::Field(width) => {
                if width > u64::from(room) {
                    return Scan::Broken(Fault {
                        kind: FaultKind::Overrun,
                        place,
                    });
                }
                let width = width as usize;
                if rest.len() < width {
                    return Scan::More;
                }
                let (field, after) = rest.split_at(width);
                match cursor.read(field) {
                    Err(kind) => return Scan::Broken(Fault { kind, place }),
                    Ok(next) => cursor = next,
                }
                rest = after;
                place += width as u32;
            }
        }
    }
}

/// The same, by each field's number alone.
pub fn scan<C: Cursor>(have: &[u8], total: u32, first: C) -> Scan<C::Head>
    requires { length have.now ≤ total }
    ensures { (rows : Rows C.Value) → C.stands first rows → IsVerdict C.says total result (judge (body total rows) 0 have.now) }
{
    scan_with(have, total, ByNumber(first))
}
