//! What a line says, by the fields after its word.
ghost use Rattle.std.specs.Prelude.{◌≡◌, IfOk};
ghost use Rattle.journey_script.specs.Compact.{says};
ghost use Rattle.journey_script.specs.Lines.{line_by};
ghost use Rattle.journey_script.specs.declared.word.LineWord.{LineWord};

use crate::compact::CompactLine;
use crate::fault::ScriptFault;
use crate::field;
use crate::fields::Fields;
use io_operands::IoSetting;

/// A `device` line: the first of its fields that is wrong is the fault.
#[tactic(auto, unfolding(crate::specs::Lines::line_by))]
pub fn device_line(mut fields: Fields<'_>) -> Result<CompactLine, ScriptFault>
    ensures { says result ≡ line_by LineWord.Device fields.entry }
{
    let imei = field::imei(fields.next())?;
    let codec = field::codec(fields.next())?;
    let slots = field::number(1, 4096, fields.next())?;
    let order = field::order(fields.next())?;
    let period = field::number(0, u64::MAX, fields.next())?;
    let distance = field::number(0, u64::MAX, fields.next())?;
    let angle = field::number(0, 0xffff, fields.next())?;
    let speed = field::number(0, 0xffff, fields.next())?;
    let known = field::flag(fields.next())?;
    Ok(CompactLine::Device {
        imei,
        codec,
        slots: slots as u16,
        order,
        period,
        distance,
        angle: angle as u16,
        speed: speed as u16,
        known,
    })
}

/// An `io` line: the first of its fields that is wrong is the fault.
#[tactic(auto, unfolding(crate::specs::Lines::line_by))]
pub fn setting_line(mut fields: Fields<'_>) -> Result<CompactLine, ScriptFault>
    ensures { says result ≡ line_by LineWord.Io fields.entry }
{
    let imei = field::imei(fields.next())?;
    let id = field::number(0, 0xffff, fields.next())?;
    let width = field::number(0, 0xff, fields.next())?;
    let operand = field::operand(fields.next())?;
    let low = field::number(0, u64::MAX, fields.next())?;
    let high = field::number(0, u64::MAX, fields.next())?;
    let priority = field::number(0, 0xff, fields.next())?;
    let setting = IoSetting {
        id: id as u16,
        width: width as u8,
        operand,
        low,
        high,
        priority: priority as u8,
    };
    Ok(CompactLine::Setting { imei, setting })
}

/// A `round` line: the first of its fields that is wrong is the fault.
#[tactic(auto, unfolding(crate::specs::Lines::line_by))]
pub fn round_line(mut fields: Fields<'_>) -> Result<CompactLine, ScriptFault>
    ensures { says result ≡ line_by LineWord.Round fields.entry }
{
    let imei = field::imei(fields.next())?;
    let piece = field::number(1, 65536, fields.next())?;
    let up = field::limit(fields.next())?;
    let down = field::limit(fields.next())?;
    Ok(CompactLine::Round {
        imei,
        piece: piece as u32,
        up,
        down,
    })
}

/// A `drain` line: the first of its fields that is wrong is the fault.
#[tactic(auto, unfolding(crate::specs::Lines::line_by))]
pub fn drain_line(mut fields: Fields<'_>) -> Result<CompactLine, ScriptFault>
    ensures { says result ≡ line_by LineWord.Drain fields.entry }
{
    let imei = field::imei(fields.next())?;
    let piece = field::number(1, 65536, fields.next())?;
    Ok(CompactLine::Drain {
        imei,
        piece: piece as u32,
    })
}

/// A `late` line: the first of its fields that is wrong is the fault.
#[tactic(auto, unfolding(crate::specs::Lines::line_by))]
pub fn late_line(mut fields: Fields<'_>) -> Result<CompactLine, ScriptFault>
    ensures { says result ≡ line_by LineWord.Late fields.entry }
{
    let connection = field::number(0, 0xffff_ffff, fields.next())?;
    let bytes = field::limit(fields.next())?;
    Ok(CompactLine::Late {
        connection: connection as u32,
        bytes,
    })
}

/// A `close` line: its field is wrong, or the line says which connection is closed.
#[tactic(auto, unfolding(crate::specs::Lines::line_by))]
pub fn close_line(mut fields: Fields<'_>) -> Result<CompactLine, ScriptFault>
    ensures { says result ≡ line_by LineWord.Close fields.entry }
{
    let connection = field::number(0, 0xffff_ffff, fields.next())?;
    Ok(CompactLine::Close {
        connection: connection as u32,
    })
}

/// A `power` line: its field is wrong, or the line says whose power is lost.
#[tactic(auto, unfolding(crate::specs::Lines::line_by))]
pub fn power_line(mut fields: Fields<'_>) -> Result<CompactLine, ScriptFault>
    ensures { says result ≡ line_by LineWord.Power fields.entry }
{
    let who = field::whose(fields.next())?;
    Ok(CompactLine::Power { who })
}

/// A `fuse` line: the first of its fields that is wrong is the fault.
#[tactic(auto, unfolding(crate::specs::Lines::line_by))]
pub fn fuse_line(mut fields: Fields<'_>) -> Result<CompactLine, ScriptFault>
    ensures { says result ≡ line_by LineWord.Fuse fields.entry }
{
    let who = field::whose(fields.next())?;
    let calls = field::number(0, 1_000_000, fields.next())?;
    let tear = field::tear(fields.next())?;
    Ok(CompactLine::Fuse { who, calls, tear })
}
