ghost use Rattle.std.specs.Prelude.{◌≡◌, ◌++◌, IfOk, OnOk};
ghost use Rattle.avl_values.specs.Viewed.{record_of};
ghost use Rattle.fmb_drive.specs.Drive.{FlashRefusal, refusal_line, size, slot};
ghost use Rattle.fmb_drive.specs.Log.{end_by, flash_line, got_by, lost_line, round_line};

use avl_values::{Imei, NoMemory, Rec};
use fmb_text::{push_device_end, push_record};
use std::alloc::Global;
use text_streams::{push, push_decimal};
use tracker_session::{Got, RoundEnd};
use trial_model::DeviceEnd;

fn got_by(got: Got) -> trial_model::Got
    ensures { result ≡ got_by got }
{
    match got {
        Got::Login(byte) => trial_model::Got::Login(byte),
        Got::Count(count) => trial_model::Got::Count(count),
        Got::Frame(found) => trial_model::Got::Frame(found),
    }
}

/// How a round ended, as the report has it.
fn end_by(end: RoundEnd) -> DeviceEnd
    ensures { result ≡ end_by end }
{
    match end {
        RoundEnd::Done(records) => DeviceEnd::Done(records),
        RoundEnd::Empty => DeviceEnd::Empty,
        RoundEnd::Refused => DeviceEnd::Refused,
        RoundEnd::Broken => DeviceEnd::Broken,
        RoundEnd::WrongAnswer { got } => DeviceEnd::WrongAnswer { got: got_by(got) },
        RoundEnd::TooManyCommands => DeviceEnd::TooManyCommands,
    }
}

/// `round N END`.
#[tactic(auto, unfolding(crate::specs::Log::round_line))]
pub(crate) fn round_text(alloc: Global, line: u32, end: RoundEnd) -> Result<Vec<u8>, NoMemory>
    ensures { IfOk result (λ text. text.items ≡ round_line line end) }
{
    let mut text = Vec::new(alloc);
    push(&mut text, b"round ")?;
    push_decimal(&mut text, line as u64)?;
    push(&mut text, b" ")?;
    push_device_end(&mut text, end_by(end))?;
    push(&mut text, b"\n")?;
    Ok(text)
}

/// `lost IMEI CODEC HEX`.
pub(crate) fn lost_text(alloc: Global, imei: &Imei, rec: &Rec) -> Result<Vec<u8>, NoMemory>
    ensures { IfOk result (λ text. text.items ≡ lost_line imei.now (record_of rec.now)) }
{
    let mut text = Vec::new(alloc);
    push_record(
        alloc,
        &mut text,
        "lost",
        imei,
        rec.codec,
        rec.bytes.as_slice(),
    )?;
    Ok(text)
}

/// `flash N`.
#[tactic(auto, unfolding(crate::specs::Log::flash_line))]
pub(crate) fn flash_text(alloc: Global, open_slots: u16) -> Result<Vec<u8>, NoMemory>
    ensures { IfOk result (λ text. text.items ≡ flash_line open_slots) }
{
    let mut text = Vec::new(alloc);
    push(&mut text, b"flash ")?;
    push_decimal(&mut text, open_slots as u64)?;
    push(&mut text, b"\n")?;
    Ok(text)
}

/// `refused flash size GOT WANTED`.
#[tactic(auto, unfolding(crate::specs::Drive::refusal_line))]
pub(crate) fn size_text(alloc: Global, got: u64, wanted: u64) -> Result<Vec<u8>, NoMemory>
    ensures { IfOk result (λ text. text.items ≡ refusal_line (size got wanted)) }
{
    let mut text = Vec::new(alloc);
    push(&mut text, b"refused flash size ")?;
    push_decimal(&mut text, got)?;
    push(&mut text, b" ")?;
    push_decimal(&mut text, wanted)?;
    push(&mut text, b"\n")?;
    Ok(text)
}

/// `refused flash slot N`.
#[tactic(auto, unfolding(crate::specs::Drive::refusal_line))]
pub(crate) fn slot_text(alloc: Global, number: u16) -> Result<Vec<u8>, NoMemory>
    ensures { IfOk result (λ text. text.items ≡ refusal_line (slot number)) }
{
    let mut text = Vec::new(alloc);
    push(&mut text, b"refused flash slot ")?;
    push_decimal(&mut text, number as u64)?;
    push(&mut text, b"\n")?;
    Ok(text)
}
