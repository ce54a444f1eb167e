ghost use Rattle.std.specs.Prelude.{◌≡◌, ◌<◌, ◌==◌, ◌≤◌, Some, length, option_map, slice_get, vec_len};
ghost use Rattle.journey_script.specs.Compact.{HasFewValues, line_in};

use crate::compact::{CompactFix, CompactLine, NumberedLine};
use acquisition::Fix;
use arrayvec::ArrayVec;
use std::marker::Model;
use trial_model::ScriptLine;

/// A script, seen as the list of its lines with their numbers in the text, without those that are skipped. Each script is one that
/// `read_script` accepts.
#[derive(Drop)]
pub struct Script {
    lines: Vec<NumberedLine>,
}

impl Model for Script {
    ghost use Rattle.std.specs.Prelude.{ℕ, List};
    ghost use Rattle.trial_model.specs.declared.script.ScriptLine.{ScriptLine};
    ghost use Rattle.journey_script.specs.Compact.{IsKept, script_in};

    ghost Value = { List (ℕ × ScriptLine) };

    ghost view = { λ s. script_in s.lines.items };

    ghost invariant = { λ s. IsKept s.lines.items };
}

impl Script {
    ghost use Rattle.journey_script.specs.Compact.{IsKept, script_in};
    ghost use Rattle.journey_script.specs.Grammar.{IsScript};

    pub(crate) fn new(lines: Vec<NumberedLine>) -> Script
        requires { IsKept lines.items }
        ensures { result ≡ script_in lines.items }
    {
        Script { lines }
    }

    pub(crate) fn lines(&self) -> &[NumberedLine]
        ensures lines { script_in result.now ≡ self.now }
        ensures kept { IsKept result.now }
    {
        self.lines.as_slice()
    }

    /// The number of its lines.
    pub fn len(&self) -> usize
        ensures len { result ≡ length self.now }
        ensures is_script { IsScript self.now }
    {
        self.lines.len()
    }

    /// Whether it has no line.
    pub fn is_empty(&self) -> bool
        ensures { result ≡ (length self.now == 0) }
    {
        self.lines.is_empty()
    }

    /// The number in the text, from 1, of the line at place `i` from 0.
    pub fn number_at(&self, i: usize) -> u32
        requires { i < length self.now }
        ensures { option_map (λ l. l.0) (slice_get self.now i) ≡ Some result }
    {
        self.lines[i].number
    }

    /// The line at place `i` from 0. It is made from a shorter form, in which the script keeps it.
    pub fn line_at(&self, i: usize) -> ScriptLine
        requires { i < length self.now }
        ensures { option_map (λ l. l.1) (slice_get self.now i) ≡ Some result }
    {
        script_line(&self.lines[i].line)
    }
}

fn script_line(line: &CompactLine) -> ScriptLine
    requires { HasFewValues line.now }
    ensures { result ≡ line_in line.now }
{
    match line {
        CompactLine::Device {
            imei,
            codec,
            slots,
            order,
            period,
            distance,
            angle,
            speed,
            known,
        } => ScriptLine::Device {
            imei: *imei,
            codec: *codec,
            slots: *slots,
            order: *order,
            period: *period,
            distance: *distance,
            angle: *angle,
            speed: *speed,
            known: *known,
        },
        CompactLine::Setting { imei, setting } => ScriptLine::Setting {
            imei: *imei,
            setting: *setting,
        },
        CompactLine::Fix { imei, fix } => ScriptLine::Fix {
            imei: *imei,
            fix: whole_fix(fix),
        },
        CompactLine::Round {
            imei,
            piece,
            up,
            down,
        } => ScriptLine::Round {
            imei: *imei,
            piece: *piece,
            up: *up,
            down: *down,
        },
        CompactLine::Drain { imei, piece } => ScriptLine::Drain {
            imei: *imei,
            piece: *piece,
        },
        CompactLine::Late { connection, bytes } => ScriptLine::Late {
            connection: *connection,
            bytes: *bytes,
        },
        CompactLine::Close { connection } => ScriptLine::Close {
            connection: *connection,
        },
        CompactLine::Power { who } => ScriptLine::Power { who: *who },
        CompactLine::Fuse { who, calls, tear } => ScriptLine::Fuse {
            who: *who,
            calls: *calls,
            tear: *tear,
        },
    }
}

fn whole_fix(fix: &CompactFix) -> Fix
    requires { vec_len fix.now.values ≤ 32 }
    ensures time { result.time ≡ fix.now.time }
    ensures gps { result.gps ≡ fix.now.gps }
    ensures odometer { result.odometer ≡ fix.now.odometer }
    ensures values { result.values.items ≡ fix.now.values.items }
{
    let mut values = ArrayVec::new();
    let _added = values.try_extend_from_slice(fix.values.as_slice());
    Fix {
        time: fix.time,
        gps: fix.gps,
        odometer: fix.odometer,
        values,
    }
}
