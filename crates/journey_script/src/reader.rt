ghost use Rattle.std.specs.Prelude.{◌≡◌, ◌+◌, ◌≤◌, ◌<◌, ◌^◌, Ok, IfErr, IfOk, OnOk};
ghost use Rattle.journey_script.specs.Compact.{HasFewValues, line_in};
ghost use Rattle.journey_script.specs.Grammar.{Refuses, script_of};
ghost use Rattle.journey_script.specs.Taking.{IsRefusedAt, TakesText, fault_at};

use crate::compact::NumberedLine;
use crate::fault::{LineFault, ReadFault, ScriptFault};
use crate::line::read_line;
use crate::script::Script;
use crate::standing::Standing;
use std::alloc::Global;
use text_lines::{ContentLines, LONGEST};

/// The script of a text, or its first fault. It takes about 60 bytes of memory for each line that isn't skipped, and the values of `fix` lines.
pub fn read_script(alloc: Global, text: &[u8]) -> Result<Script, ReadFault>
    ensures script { IfOk result (λ script. script_of text.now ≡ Ok script) }
    ensures refused { IfErr result (Refuses (script_of text.now)) }
{
    if text.len() > LONGEST {
        return Err(ReadFault::Line {
            line: 0,
            kind: ScriptFault::TextTooLong,
        });
    }
    let mut lines = Vec::new(alloc);
    let mut standing = Standing::new(alloc);
    for line in ContentLines::new(text) {
        let _count = lines.len();
        let taken = take_line(alloc, line.number, line.text, &mut standing)?;
        lines.push(taken)?;
    }
    Ok(Script::new(lines))
}

fn take_line(
    alloc: Global,
    number: u32,
    text: &[u8],
    standing: &mut Standing,
) -> Result<NumberedLine, ReadFault>
    requires { standing.old.connections.count < 2 ^ 63 }
    ensures takes { IfOk result (TakesText standing.old standing.new number text.now) }
    ensures few { IfOk result (λ taken. HasFewValues taken.line) }
    ensures count { OnOk result (standing.new.connections.count ≤ standing.old.connections.count + 1) }
    ensures refused { IfErr result (IsRefusedAt standing.old number text.now) }
{
    let line = match read_line(alloc, text) {
        Ok(line) => line,
        Err(fault) => return Err(at(number, fault)),
    };
    match standing.take(&line) {
        Ok(()) => Ok(NumberedLine { number, line }),
        Err(fault) => Err(at(number, fault)),
    }
}

fn at(number: u32, fault: LineFault) -> ReadFault
    ensures { result ≡ fault_at number fault }
{
    match fault {
        LineFault::Fault(kind) => ReadFault::Line { line: number, kind },
        LineFault::NoMemory => ReadFault::NoMemory,
    }
}
