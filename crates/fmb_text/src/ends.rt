ghost use Rattle.std.specs.Prelude.{◌≡◌, ◌++◌, OnOk};
ghost use Rattle.fmb_text.specs.Ends.{codec_word, device_end_words, server_end_words};

use avl_values::{Codec, Fault, NoMemory};
use text_streams::{push, push_decimal};
use trial_model::{DeviceEnd, ServerEnd};

/// `8`, `8E` or `16`.
pub(crate) fn word_of(codec: Codec) -> &'static str
    ensures { result.now ≡ codec_word codec }
{
    match codec {
        Codec::C8 => "8",
        Codec::C8E => "8E",
        Codec::C16 => "16",
    }
}

/// Appends the words for how a round ended. At NoMemory some of them may be there.
#[tactic(auto, unfolding(crate::specs::Ends::device_end_words))]
pub fn push_device_end(text: &mut Vec<u8>, end: DeviceEnd) -> Result<(), NoMemory>
    ensures { OnOk result (text.new.items ≡ text.old.items ++ device_end_words end) }
{
    match end {
        DeviceEnd::Done(records) => {
            push(text, b"done ")?;
            push_decimal(text, records as u64)
        }
        DeviceEnd::Empty => push(text, b"empty"),
        DeviceEnd::Refused => push(text, b"refused"),
        DeviceEnd::Broken => push(text, b"broken"),
        DeviceEnd::WrongAnswer { got: _ } => push(text, b"wrong"),
        DeviceEnd::TooManyCommands => push(text, b"commands"),
        DeviceEnd::MediumFault => push(text, b"medium"),
    }
}

fn push_fault(text: &mut Vec<u8>, fault: Fault) -> Result<(), NoMemory>
    ensures { OnOk result (text.new.items ≡ text.old.items ++ server_end_words (ServerEnd.Broken fault)) }
{
    push(text, b"fault ")?;
    push(text, fault.kind.name().as_bytes())?;
    push(text, b" ")?;
    push_decimal(text, fault.place as u64)?;
    Ok(())
}

/// Appends the words for how a session ended. At NoMemory some of them may be there.
#[tactic(auto, unfolding(crate::specs::Ends::server_end_words))]
pub fn push_server_end(text: &mut Vec<u8>, end: ServerEnd) -> Result<(), NoMemory>
    ensures { OnOk result (text.new.items ≡ text.old.items ++ server_end_words end) }
{
    match end {
        ServerEnd::Ended => push(text, b"ended"),
        ServerEnd::EndedInside { have } => {
            push(text, b"inside ")?;
            push_decimal(text, have as u64)
        }
        ServerEnd::Broken(fault) => push_fault(text, fault),
        ServerEnd::Unknown { imei: _ } => push(text, b"unknown"),
        ServerEnd::MediumFault { faults: _ } => push(text, b"medium"),
        ServerEnd::Down { faults: _ } => push(text, b"down"),
        ServerEnd::LongEnough { taken: _ } => push(text, b"long"),
        ServerEnd::LinkFault => push(text, b"link"),
        ServerEnd::NoMemory => push(text, b"memory"),
        ServerEnd::Restart => push(text, b"restart"),
    }
}
