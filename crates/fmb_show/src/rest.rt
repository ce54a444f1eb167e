//! The bytes after the last whole item.
ghost use Rattle.std.specs.Prelude.{◌≡◌, ◌++◌, ℕ, List, OnOk, length};
ghost use Rattle.fmb_show.specs.Shown.{short_print};

use avl_values::NoMemory;
use show_lines::{Item, push_line};

/// Appends how many bytes of an unfinished item there are, where there are some.
pub fn push_short(out: &mut Vec<u8>, have: u32, line: u32) -> Result<(), NoMemory>
    ensures { OnOk result ((rest : List ℕ) → length rest ≡ have → out.new.items ≡ out.old.items ++ (short_print rest line).text) }
{
    if have == 0 {
        return Ok(());
    }
    push_line(out, &Item::Short { have }, line)
}
