ghost use Rattle.std.specs.Prelude.{◌≡◌, ◌==◌, nat_le, length, Ok, IfOk, IfErr};
ghost use Rattle.journey_script.specs.Compact.{RefusesLine, line_in};
ghost use Rattle.journey_script.specs.Lines.{line_by, line_of};
ghost use Rattle.journey_script.specs.Table.{is_count_of};

use crate::compact::CompactLine;
use crate::fault::{LineFault, ScriptFault};
use crate::fields::Fields;
use crate::fix_line::fix_line;
use crate::form;
use crate::word::LineWord;
use std::alloc::Global;

/// What a line says, or the first fault that it has by itself.
#[tactic(auto, unfolding(crate::specs::Lines::line_of))]
pub fn read_line(alloc: Global, text: &[u8]) -> Result<CompactLine, LineFault>
    ensures line { IfOk result (λ line. line_of text.now ≡ Ok (line_in line)) }
    ensures refused { IfErr result (RefusesLine (line_of text.now)) }
{
    let mut fields = Fields::new(text);
    let Some(word) = LineWord::from_name(fields.next()) else {
        return Err(LineFault::Fault(ScriptFault::UnknownWord));
    };
    if !is_count_of(word, fields.count()) {
        return Err(LineFault::Fault(ScriptFault::FieldCount));
    }
    read_fields(alloc, word, fields)
}

fn is_count_of(word: LineWord, count: usize) -> bool
    ensures { result ≡ is_count_of word count }
{
    match word {
        LineWord::Device => count == 9,
        LineWord::Io => count == 7,
        LineWord::Fix => count >= 9,
        LineWord::Round => count == 4,
        LineWord::Drain | LineWord::Late => count == 2,
        LineWord::Close | LineWord::Power => count == 1,
        LineWord::Fuse => count == 3,
    }
}

fn read_fields(alloc: Global, word: LineWord, fields: Fields<'_>) -> Result<CompactLine, LineFault>
    ensures line { IfOk result (λ line. line_by word fields.entry ≡ Ok (line_in line)) }
    ensures refused { IfErr result (RefusesLine (line_by word fields.entry)) }
{
    let line = match word {
        LineWord::Fix => return fix_line(alloc, fields),
        LineWord::Device => form::device_line(fields)?,
        LineWord::Io => form::setting_line(fields)?,
        LineWord::Round => form::round_line(fields)?,
        LineWord::Drain => form::drain_line(fields)?,
        LineWord::Late => form::late_line(fields)?,
        LineWord::Close => form::close_line(fields)?,
        LineWord::Power => form::power_line(fields)?,
        LineWord::Fuse => form::fuse_line(fields)?,
    };
    Ok(line)
}
