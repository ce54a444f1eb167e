//! What a `fix` line says, by the fields after its word.
ghost use Rattle.std.specs.Prelude.{◌≡◌, Ok, IfOk, IfErr, OnOk};
ghost use Rattle.journey_script.specs.declared.word.LineWord.{LineWord};
ghost use Rattle.journey_script.specs.Compact.{RefusesLine, head_says, line_in};
ghost use Rattle.journey_script.specs.Lines.{fields_after, fix_with, line_by, read_fields, read_values};
ghost use Rattle.journey_script.specs.Table.{kinds_of};

use crate::compact::{CompactFix, CompactLine};
use crate::fault::{LineFault, ScriptFault};
use crate::field;
use crate::fields::Fields;
use avl_values::{Gps, Imei};
use std::alloc::Global;
use std::boxed::Box;

/// What comes before the values.
#[derive(Clone, Copy)]
pub struct FixHead {
    pub imei: Imei,
    pub time: u64,
    pub gps: Gps,
    pub odometer: u64,
}

/// The line of the fields that are left.
#[tactic(auto, unfolding(crate::specs::Lines::line_by))]
pub fn fix_line(alloc: Global, mut fields: Fields<'_>) -> Result<CompactLine, LineFault>
    ensures line { IfOk result (λ line. line_by LineWord.Fix fields.entry ≡ Ok (line_in line)) }
    ensures refused { IfErr result (RefusesLine (line_by LineWord.Fix fields.entry)) }
{
    let head = fix_head(&mut fields)?;
    let values = fix_values(alloc, fields)?;
    let fix = CompactFix {
        time: head.time,
        gps: head.gps,
        odometer: head.odometer,
        values,
    };
    Ok(CompactLine::Fix {
        imei: head.imei,
        fix: Box::new(alloc, fix)?,
    })
}

fn fix_head(fields: &mut Fields<'_>) -> Result<FixHead, ScriptFault>
    ensures head { head_says result ≡ read_fields (kinds_of LineWord.Fix) fix_with fields.old }
    ensures rest { OnOk result (fields.new ≡ fields_after (kinds_of LineWord.Fix) fields.old) }
{
    let imei = field::imei(fields.next())?;
    let time = field::number(0, u64::MAX, fields.next())?;
    let longitude = field::signed(0x7fff_ffff, fields.next())?;
    let latitude = field::signed(0x7fff_ffff, fields.next())?;
    let altitude = field::signed(0x7fff, fields.next())?;
    let angle = field::number(0, 0xffff, fields.next())?;
    let satellites = field::number(0, 0xff, fields.next())?;
    let speed = field::number(0, 0xffff, fields.next())?;
    let odometer = field::number(0, u64::MAX, fields.next())?;
    let gps = Gps {
        longitude,
        latitude,
        altitude: altitude as i16,
        angle: angle as u16,
        satellites: satellites as u8,
        speed: speed as u16,
    };
    Ok(FixHead {
        imei,
        time,
        gps,
        odometer,
    })
}

fn fix_values(alloc: Global, mut fields: Fields<'_>) -> Result<Vec<u64>, LineFault>
    ensures values { IfOk result (λ values. read_values fields.entry ≡ Ok values.items) }
    ensures refused { IfErr result (RefusesLine (read_values fields.entry)) }
{
    let mut values = Vec::new(alloc);
    'fields: while !fields.is_empty() {
        let value = field::number(0, u64::MAX, fields.next())?;
        values.push(value)?;
    }
    Ok(values)
}
