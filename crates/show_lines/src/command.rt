//! Commands and responses.
ghost use Rattle.std.specs.Prelude.{◌≡◌, ◌++◌, OnErr, OnOk};
ghost use Rattle.command_codecs.specs.Views.{value_of};
ghost use Rattle.layout.specs.Bytes.{AreBytes};
ghost use Rattle.show_lines.specs.ItemTexts.{command_text};
ghost use Rattle.show_lines.specs.Json.{as_line};
ghost use Rattle.show_lines.specs.Sent.{Sends};
ghost use Rattle.show_lines.specs.Tokens.{command_tokens};

use crate::members;
use crate::push::push_json;
use avl_values::NoMemory;
use command_codecs::Command;
use serde::{Described, Serialize, Serializer};
use std::alloc::Global;

/// A command on a line of a capture.
#[derive(Drop)]
struct CommandLine<'a> {
    command: &'a Command<'a>,
    line: u32,
    alloc: Global,
}

impl Described for CommandLine<'_> {
    ghost writes = { λ l old new. Sends (command_tokens (value_of l.command.now) l.line) old new × AreBytes l.command.now.text.now };
}

impl Serialize for CommandLine<'_> {
    fn serialize<S: Serializer>(&self, out: &mut S) -> Result<(), S::Error> {
        let command = self.command;
        members::begin(out, 7)?;
        members::number(out, "codec", command.codec as u64)?;
        members::imei_or_null(out, command.imei)?;
        members::text(out, "item", "command")?;
        members::number(out, "kind", command.kind as u64)?;
        members::number(out, "line", self.line as u64)?;
        out.key("text")?;
        members::hex(out, self.alloc, command.text)?;
        members::number_or_null(out, "time", command.time)?;
        members::end(out)
    }
}

/// Appends the line of a command or a response that is in this line of the capture. NoMemory changes nothing.
pub fn push_command_line(
    out: &mut Vec<u8>,
    command: &Command<'_>,
    line: u32,
) -> Result<(), NoMemory>
    ensures ok { OnOk result (out.new.items
        ≡ out.old.items ++ as_line (command_text (value_of command.now) line)) }
    ensures err { OnErr result (out.new.items ≡ out.old.items) }
{
    let alloc = *out.allocator();
    push_json(
        out,
        &CommandLine {
            command,
            line,
            alloc,
        },
    )
}
