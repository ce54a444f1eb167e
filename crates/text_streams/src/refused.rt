ghost use Rattle.std.specs.Prelude.{◌≡◌, IfOk};
ghost use Rattle.text_streams.specs.Refused.{refused_line};

use crate::pieces::{push, push_decimal};
use avl_values::NoMemory;
use std::alloc::Global;

/// `refused line N NAME`, for a text whose first fault, of this name, is on this line.
#[tactic(auto, unfolding(crate::specs::Refused::refused_line))]
pub fn refused_text(alloc: Global, line: u32, name: &str) -> Result<Vec<u8>, NoMemory>
    ensures { IfOk result (λ text. text.items ≡ refused_line line name.now) }
{
    let mut text = Vec::new(alloc);
    push(&mut text, b"refused line ")?;
    push_decimal(&mut text, line as u64)?;
    push(&mut text, b" ")?;
    push(&mut text, name.as_bytes())?;
    push(&mut text, b"\n")?;
    Ok(text)
}
