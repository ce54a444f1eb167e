//! A stream down that is printed.
ghost use Rattle.std.specs.Prelude.{◌≡◌, ◌++◌, IfOk};
ghost use Rattle.fmb_show.specs.Shown.{down_print};

use crate::command::push_command;
use crate::rest::push_short;
use avl_values::NoMemory;
use command_codecs::Way;
use frame_channel::{Down, DownItem};
use show_lines::{Item, push_line};

/// Appends what is printed of a stream down, from the login's answer or from after it, and says whether a fault ends it. At
/// NoMemory a part of it may have been appended.
pub fn push_down(
    out: &mut Vec<u8>,
    after_answer: bool,
    bytes: &[u8],
    line: u32,
) -> Result<bool, NoMemory>
    ensures text { IfOk result (λ faulty. out.new.items ≡ out.old.items ++ (down_print after_answer bytes.now line).text) }
    ensures faulty { IfOk result (λ faulty. faulty ≡ (down_print after_answer bytes.now line).faulty) }
{
    let mut down = if after_answer {
        Down::answers()
    } else {
        Down::new()
    };
    let mut at = 0;
    while at < bytes.len() {
        let (taken, item) = down.push(&bytes[at..]);
        at += taken;
        match item {
            DownItem::More => {}
            DownItem::Login(byte) => push_line(out, &Item::Answer(byte), line)?,
            DownItem::Count(n) => push_line(out, &Item::Count(n), line)?,
            DownItem::Order => push_command(out, Way::Down, down.body(), line)?,
            DownItem::Broken(fault) => {
                push_line(out, &Item::Fault(fault), line)?;
                return Ok(true);
            }
        }
    }
    push_short(out, down.have(), line)?;
    Ok(false)
}
