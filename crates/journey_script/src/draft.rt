ghost use Rattle.std.specs.Prelude.{◌≡◌, ◌-◌, ◌<◌, ◌≤◌, ◌^◌, ◌++◌, [], ◌∷◌, length, vec_len, IfOk, OnErr, OnOk};
ghost use Rattle.std.specs.List.{enumerate_from};
ghost use Rattle.journey_script.specs.Compact.{HasFewValues, line_in};
ghost use Rattle.journey_script.specs.Grammar.{IsScript};

use crate::compact::{CompactFix, CompactLine, NumberedLine};
use crate::script::Script;
use acquisition::Fix;
use avl_values::NoMemory;
use std::alloc::Global;
use std::boxed::Box;
use std::marker::Model;
use trial_model::ScriptLine;

/// The lines of a script that is made rather than read, seen as their list. They are numbered from 1, without a gap.
#[derive(Drop)]
pub struct ScriptDraft {
    lines: Vec<NumberedLine>,
}

impl Model for ScriptDraft {
    ghost use Rattle.std.specs.Prelude.{List};
    ghost use Rattle.trial_model.specs.Script.{lines_of};
    ghost use Rattle.trial_model.specs.declared.script.ScriptLine.{ScriptLine};
    ghost use Rattle.journey_script.specs.Compact.{IsNumbered, script_in};

    ghost Value = { List ScriptLine };

    ghost view = { λ d. lines_of (script_in d.lines.items) };

    ghost invariant = { λ d. IsNumbered d.lines.items };
}

impl ScriptDraft {
    /// No line.
    pub fn new(alloc: Global) -> ScriptDraft
        ensures { result ≡ [] }
    {
        ScriptDraft {
            lines: Vec::new(alloc),
        }
    }

    /// Puts the line last. NoMemory changes nothing.
    pub fn push(&mut self, alloc: Global, line: &ScriptLine) -> Result<(), NoMemory>
        requires { length self.old < 2 ^ 32 - 1 }
        ensures ok { OnOk result (self.new ≡ self.old ++ line.now ∷ []) }
        ensures err { OnErr result (self.new ≡ self.old) }
    {
        let number = self.lines.len() as u32 + 1;
        let line = compact_line(alloc, line)?;
        self.lines.push(NumberedLine { number, line })?;
        Ok(())
    }

    /// The script of these lines, which are those of one.
    pub fn finish(self) -> Script
        requires { IsScript (enumerate_from 1 self) }
        ensures { result ≡ enumerate_from 1 self }
    {
        let ScriptDraft { lines } = self;
        Script::new(lines)
    }
}

fn compact_line(alloc: Global, line: &ScriptLine) -> Result<CompactLine, NoMemory>
    ensures line { IfOk result (λ compact. line_in compact ≡ line.now) }
    ensures few { IfOk result HasFewValues }
{
    Ok(match line {
        ScriptLine::Device {
            imei,
            codec,
            slots,
            order,
            period,
            distance,
            angle,
            speed,
            known,
        } => CompactLine::Device {
            imei: *imei,
            codec: *codec,
            slots: *slots,
            order: *order,
            period: *period,
            distance: *distance,
            angle: *angle,
            speed: *speed,
            known: *known,
        },
        ScriptLine::Setting { imei, setting } => CompactLine::Setting {
            imei: *imei,
            setting: *setting,
        },
        ScriptLine::Fix { imei, fix } => CompactLine::Fix {
            imei: *imei,
            fix: Box::new(alloc, compact_fix(alloc, fix)?)?,
        },
        ScriptLine::Round {
            imei,
            piece,
            up,
            down,
        } => CompactLine::Round {
            imei: *imei,
            piece: *piece,
            up: *up,
            down: *down,
        },
        ScriptLine::Drain { imei, piece } => CompactLine::Drain {
            imei: *imei,
            piece: *piece,
        },
        ScriptLine::Late { connection, bytes } => CompactLine::Late {
            connection: *connection,
            bytes: *bytes,
        },
        ScriptLine::Close { connection } => CompactLine::Close {
            connection: *connection,
        },
        ScriptLine::Power { who } => CompactLine::Power { who: *who },
        ScriptLine::Fuse { who, calls, tear } => CompactLine::Fuse {
            who: *who,
            calls: *calls,
            tear: *tear,
        },
    })
}

fn compact_fix(alloc: Global, fix: &Fix) -> Result<CompactFix, NoMemory>
    ensures time { IfOk result (λ compact. compact.time ≡ fix.now.time) }
    ensures gps { IfOk result (λ compact. compact.gps ≡ fix.now.gps) }
    ensures odometer { IfOk result (λ compact. compact.odometer ≡ fix.now.odometer) }
    ensures values { IfOk result (λ compact. compact.values.items ≡ fix.now.values.items) }
    ensures few { IfOk result (λ compact. vec_len compact.values ≤ 32) }
{
    Ok(CompactFix {
        time: fix.time,
        gps: fix.gps,
        odometer: fix.odometer,
        values: Vec::from_slice(alloc, fix.values.as_slice())?,
    })
}
