//! A command's body judged and read.
ghost use Rattle.std.specs.Prelude.{◌≡◌, ◌≤◌, ◌+◌, ◌-◌, ◌^◌, IfErr, IfOk, length, take, drop};
ghost use Rattle.layout.specs.Rows.{fault, whole};
ghost use Rattle.command_layout.specs.CommandRows.{command_verdict};
ghost use Rattle.command_layout.specs.Spelling.{IsCommand};
ghost use Rattle.command_codecs.specs.Verdicts.{scan_verdict, without_value};
ghost use Rattle.command_codecs.specs.Views.{value_of};

use crate::command::Command;
use crate::place::CommandPlace;
use crate::reading::Hearing;
use crate::verdict::CommandScan;
use avl_values::Fault;
use command_layout::Way;
use field_machine::{Scan, scan, scan_with};

/// Judges the first bytes of a command's body of `total` bytes. Each byte is read once.
pub fn scan_command(have: &[u8], total: u32, way: Way) -> CommandScan
    requires { length have.now ≤ total }
    ensures { scan_verdict total result ≡ without_value (command_verdict way total have.now) }
{
    CommandScan::of(scan(have, total, CommandPlace::first(total, way)))
}

/// The text of a whole command, which has `count` bytes and comes before the last quantity.
fn text_of(body: &[u8], count: u32) -> &[u8]
    requires { count + 1 ≤ length body.now }
    ensures { result.now ≡ take count (drop (length body.now - (count + 1)) body.now) }
{
    let count = count as usize;
    let (_, rest) = body.split_at(body.len() - (count + 1));
    let (text, _) = rest.split_at(count);
    text
}

/// Reads a whole body: what the command says, or the first fault (Teltonika, Data Sending Protocols: Codecs 12, 13, 14, 15). Each
/// byte is read once.
pub fn read_command(body: &[u8], way: Way) -> Result<Command<'_>, Fault>
    requires { length body.now ≤ 2 ^ 31 }
    ensures value { IfOk result (λ command. command_verdict way (length body.now) body.now ≡ whole (value_of command) (length body.now)) }
    ensures command { IfOk result (λ command. IsCommand way (value_of command) body.now) }
    ensures broken { IfErr result (λ found. command_verdict way (length body.now) body.now ≡ fault found.kind found.place) }
{
    let total = body.len() as u32;
    match scan_with(body, total, Hearing::first(total, way)) {
        Scan::Whole(heard) => Ok(heard.said.with_text(text_of(body, heard.text))),
        Scan::Broken(fault) => Err(fault),
        Scan::More => unreachable!(),
    }
}
