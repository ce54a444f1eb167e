ghost use Rattle.std.specs.Prelude.{◌≡◌, ◌++◌, OnOk};
ghost use Rattle.std.specs.List.{flat_map};
ghost use Rattle.avl_values.specs.Viewed.{record_of, records_viewed};
ghost use Rattle.fmb_text.specs.Report.{count_words, device_line, device_text, record_line, record_lines};

use crate::ends::word_of;
use avl_values::{Codec, Imei, NoMemory, Rec, WideRec};
use std::alloc::Global;
use text_streams::{push, push_decimal, push_imei};
use trial_model::DeviceOutcome;

#[tactic(auto, unfolding(crate::specs::Report::count_words))]
fn push_count(text: &mut Vec<u8>, list: &str, count: usize) -> Result<(), NoMemory>
    ensures { OnOk result (text.new.items ≡ text.old.items ++ count_words list.now count) }
{
    push(text, b" ")?;
    push(text, list.as_bytes())?;
    push(text, b" ")?;
    push_decimal(text, count as u64)
}

/// `device IMEI acquired A cut C overwritten O flash F archived R`.
pub(crate) fn push_device_line(text: &mut Vec<u8>, device: &DeviceOutcome) -> Result<(), NoMemory>
    ensures { OnOk result (text.new.items ≡ text.old.items ++ device_line device.now) }
{
    push(text, b"device ")?;
    push_imei(text, &device.imei)?;
    push_count(text, "acquired", device.acquired.len())?;
    push_count(text, "cut", device.cut.len())?;
    push_count(text, "overwritten", device.overwritten.len())?;
    push_count(text, "flash", device.flash.len())?;
    push_count(text, "archived", device.archived.len())?;
    push(text, b"\n")?;
    Ok(())
}

/// Appends `LIST IMEI CODEC HEX` and a line's end. At NoMemory some of it may be there.
#[tactic(auto, unfolding(crate::specs::Report::record_line))]
pub fn push_record(
    alloc: Global,
    text: &mut Vec<u8>,
    list: &str,
    imei: &Imei,
    codec: Codec,
    bytes: &[u8],
) -> Result<(), NoMemory>
    ensures { OnOk result (text.new.items ≡ text.old.items ++ record_line list.now imei.now (record { codec = codec; bytes = bytes.now })) }
{
    let digits = hex::encode(alloc, bytes)?;
    push(text, list.as_bytes())?;
    push(text, b" ")?;
    push_imei(text, imei)?;
    push(text, b" ")?;
    push(text, word_of(codec).as_bytes())?;
    push(text, b" ")?;
    push(text, digits.as_bytes())?;
    push(text, b"\n")?;
    Ok(())
}

fn push_records(
    alloc: Global,
    text: &mut Vec<u8>,
    list: &str,
    imei: &Imei,
    records: &[Rec],
) -> Result<(), NoMemory>
    ensures { OnOk result (text.new.items ≡ text.old.items ++ record_lines list.now imei.now (records_viewed records.now)) }
{
    for item in records {
        push_record(alloc, text, list, imei, item.codec, item.bytes.as_slice())?;
    }
    Ok(())
}

fn push_wide_records(
    alloc: Global,
    text: &mut Vec<u8>,
    list: &str,
    imei: &Imei,
    records: &[WideRec],
) -> Result<(), NoMemory>
    ensures { OnOk result (text.new.items ≡ text.old.items ++ record_lines list.now imei.now records.now) }
{
    for item in records {
        push_record(alloc, text, list, imei, item.codec(), item.bytes())?;
    }
    Ok(())
}

/// The device's line, and one line for each record of its five lists.
#[tactic(auto, unfolding(crate::specs::Report::device_text))]
pub(crate) fn push_device(
    alloc: Global,
    text: &mut Vec<u8>,
    device: &DeviceOutcome,
) -> Result<(), NoMemory>
    ensures { OnOk result (text.new.items ≡ text.old.items ++ device_text device.now) }
{
    let imei = &device.imei;
    push_device_line(text, device)?;
    push_records(alloc, text, "acquired", imei, device.acquired.as_slice())?;
    push_records(alloc, text, "cut", imei, device.cut.as_slice())?;
    push_records(
        alloc,
        text,
        "overwritten",
        imei,
        device.overwritten.as_slice(),
    )?;
    push_records(alloc, text, "flash", imei, device.flash.as_slice())?;
    push_wide_records(alloc, text, "archived", imei, device.archived.as_slice())?;
    Ok(())
}
