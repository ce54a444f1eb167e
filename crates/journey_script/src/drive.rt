ghost use Rattle.std.specs.Prelude.{◌≡◌, false};
ghost use Rattle.journey_script.specs.Compact.{line_in, script_in};
ghost use Rattle.journey_script.specs.Drive.{drive_fault_from, drive_fault_in, is_refused_by_drive};
ghost use Rattle.journey_script.specs.Later.{is_device_line};

use crate::compact::{CompactLine, NumberedLine};
use crate::fault::ScriptFault;
use crate::script::Script;
use trial_model::Who;

/// The first line, by its number, that `drive` refuses, which plays a script over a real link: a second `device` line, a `late`, `close`,
/// `fuse` or `power server` line, or a `round` line with a limit. None where it takes the script.
pub fn drive_fault(script: &Script) -> Option<(u32, ScriptFault)>
    ensures { result ≡ drive_fault_in script.now }
{
    first_refused(script.lines())
}

fn first_refused(lines: &[NumberedLine]) -> Option<(u32, ScriptFault)>
    ensures { result ≡ drive_fault_from false (script_in lines.now) }
{
    let mut after_device = false;
    for line in lines {
        if is_refused(after_device, &line.line) {
            return Some((line.number, ScriptFault::NotForDrive));
        }
        after_device = after_device || is_device(&line.line);
    }
    None
}

fn is_device(line: &CompactLine) -> bool
    ensures { result ≡ is_device_line (line_in line.now) }
{
    match line {
        CompactLine::Device { .. } => true,
        _ => false,
    }
}

fn is_refused(after_device: bool, line: &CompactLine) -> bool
    ensures { result ≡ is_refused_by_drive after_device (line_in line.now) }
{
    match line {
        CompactLine::Device { .. } => after_device,
        CompactLine::Setting { .. } | CompactLine::Fix { .. } | CompactLine::Drain { .. } => false,
        CompactLine::Round { up, down, .. } => up.is_some() || down.is_some(),
        CompactLine::Late { .. } | CompactLine::Close { .. } | CompactLine::Fuse { .. } => true,
        CompactLine::Power { who } => match who {
            Who::Device(_) => false,
            Who::Server => true,
        },
    }
}
