ghost use Rattle.std.specs.Prelude.{◌≡◌, ◌++◌, ◌-◌, ◌∷◌, map, replicate, Ok, IfOk, OnOk};
ghost use Rattle.journey_script.specs.Compact.{fix_line, line_in, script_in};
ghost use Rattle.journey_script.specs.Grammar.{script_of};
ghost use Rattle.journey_script.specs.Table.{spell_field, value_kind};
ghost use Rattle.journey_script.specs.WrittenText.{after_line, after_words, limits_text, motion_text, place_text};
ghost use Rattle.journey_script.specs.Writing.{spelled, written};
ghost use Rattle.trial_model.specs.declared.script.ScriptLine.TheVariants as Line;

use crate::choice::{codec_name, flag_name, operand_name, order_name, tear_name};
use crate::compact::{CompactFix, CompactLine, NumberedLine};
use crate::pieces::{push, push_field, push_limit, push_number, push_signed, push_whose};
use crate::script::Script;
use avl_values::{ByteList, Gps, Imei, NoMemory};
use io_operands::IoSetting;
use std::alloc::Global;

/// Puts a line last, without its end.
#[tactic(auto, unfolding(crate::specs::Writing::spelled))]
fn push_line(text: &mut Vec<u8>, line: &CompactLine) -> Result<(), NoMemory>
    ensures { OnOk result (text.new.items ≡ text.old.items ++ spelled (line_in line.now)) }
{
    match line {
        CompactLine::Device {
            imei,
            codec,
            slots,
            order,
            period,
            distance,
            angle,
            speed,
            known,
        } => {
            push(text, b"device")?;
            push_field(text, &imei.digits())?;
            push_field(text, codec_name(*codec).as_bytes())?;
            push_number(text, u64::from(*slots))?;
            push_field(text, order_name(*order).as_bytes())?;
            push_limits(text, *period, *distance, *angle, *speed)?;
            push_field(text, flag_name(*known).as_bytes())?;
            Ok(())
        }
        CompactLine::Setting { imei, setting } => push_setting(text, *imei, setting),
        CompactLine::Fix { imei, fix } => push_fix(text, *imei, fix),
        CompactLine::Round {
            imei,
            piece,
            up,
            down,
        } => {
            push(text, b"round")?;
            push_field(text, &imei.digits())?;
            push_number(text, u64::from(*piece))?;
            push_limit(text, *up)?;
            push_limit(text, *down)?;
            Ok(())
        }
        CompactLine::Drain { imei, piece } => {
            push(text, b"drain")?;
            push_field(text, &imei.digits())?;
            push_number(text, u64::from(*piece))?;
            Ok(())
        }
        CompactLine::Late { connection, bytes } => {
            push(text, b"late")?;
            push_number(text, u64::from(*connection))?;
            push_limit(text, *bytes)?;
            Ok(())
        }
        CompactLine::Close { connection } => {
            push(text, b"close")?;
            push_number(text, u64::from(*connection))?;
            Ok(())
        }
        CompactLine::Power { who } => {
            push(text, b"power")?;
            push_whose(text, *who)?;
            Ok(())
        }
        CompactLine::Fuse { who, calls, tear } => {
            push(text, b"fuse")?;
            push_whose(text, *who)?;
            push_number(text, *calls)?;
            push_field(text, tear_name(*tear).as_bytes())?;
            Ok(())
        }
    }
}

#[tactic(auto, unfolding(crate::specs::Writing::spelled))]
fn push_setting(text: &mut Vec<u8>, imei: Imei, setting: &IoSetting) -> Result<(), NoMemory>
    ensures { OnOk result (text.new.items ≡ text.old.items ++ spelled (Line.Setting imei setting.now)) }
{
    push(text, b"io")?;
    push_field(text, &imei.digits())?;
    push_number(text, u64::from(setting.id))?;
    push_number(text, u64::from(setting.width))?;
    push_field(text, operand_name(setting.operand).as_bytes())?;
    push_number(text, setting.low)?;
    push_number(text, setting.high)?;
    push_number(text, u64::from(setting.priority))?;
    Ok(())
}

// What makes a device decide on a record.
fn push_limits(
    text: &mut Vec<u8>,
    period: u64,
    distance: u64,
    angle: u16,
    speed: u16,
) -> Result<(), NoMemory>
    ensures { OnOk result (text.new.items ≡ text.old.items ++ limits_text period distance angle speed) }
{
    push_number(text, period)?;
    push_number(text, distance)?;
    push_number(text, u64::from(angle))?;
    push_number(text, u64::from(speed))?;
    Ok(())
}

fn push_fix(text: &mut Vec<u8>, imei: Imei, fix: &CompactFix) -> Result<(), NoMemory>
    ensures { OnOk result (text.new.items ≡ text.old.items ++ spelled (fix_line imei fix.now)) }
{
    push(text, b"fix")?;
    push_field(text, &imei.digits())?;
    push_number(text, fix.time)?;
    push_place(text, fix.gps)?;
    push_motion(text, fix.gps)?;
    push_number(text, fix.odometer)?;
    push_values(text, fix.values.as_slice())?;
    Ok(())
}

fn push_place(text: &mut Vec<u8>, gps: Gps) -> Result<(), NoMemory>
    ensures { OnOk result (text.new.items ≡ text.old.items ++ place_text gps) }
{
    push_signed(text, gps.longitude)?;
    push_signed(text, gps.latitude)?;
    push_signed(text, i32::from(gps.altitude))?;
    Ok(())
}

fn push_motion(text: &mut Vec<u8>, gps: Gps) -> Result<(), NoMemory>
    ensures { OnOk result (text.new.items ≡ text.old.items ++ motion_text gps) }
{
    push_number(text, u64::from(gps.angle))?;
    push_number(text, u64::from(gps.satellites))?;
    push_number(text, u64::from(gps.speed))?;
    Ok(())
}

fn push_values(text: &mut Vec<u8>, values: &[u64]) -> Result<(), NoMemory>
    ensures { OnOk result (text.new.items ≡ text.old.items ++ after_words (map (spell_field value_kind) values.now)) }
{
    for value in values {
        push_number(text, *value)?;
    }
    Ok(())
}

/// The text of a script, in lines joined by LF, with an empty line for each line that was skipped before a line of the list.
/// `read_script` reads it as the same script, its numbers included.
pub fn write_script(alloc: Global, script: &Script) -> Result<ByteList, NoMemory>
    ensures text { IfOk result (λ text. text ≡ written script.now) }
    ensures is_read { IfOk result (λ text. script_of text ≡ Ok script.now) }
{
    let text = write_lines(alloc, script.lines())?;
    Ok(ByteList::from_vec(text))
}

fn write_lines(alloc: Global, lines: &[NumberedLine]) -> Result<Vec<u8>, NoMemory>
    ensures { IfOk result (λ text. text.items ≡ after_line 1 (script_in lines.now)) }
{
    let mut text = Vec::new(alloc);
    let mut last = 1;
    for line in lines {
        push_ends(&mut text, line.number.saturating_sub(last))?;
        push_line(&mut text, &line.line)?;
        last = line.number;
    }
    Ok(text)
}

fn push_ends(text: &mut Vec<u8>, count: u32) -> Result<(), NoMemory>
    ensures { OnOk result (text.new.items ≡ text.old.items ++ replicate count 10) }
{
    for _done in 0..count {
        text.push(b'\n')?;
    }
    Ok(())
}
