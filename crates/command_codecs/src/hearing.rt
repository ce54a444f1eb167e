//! What a command has said so far.
ghost use Rattle.std.specs.Prelude.{◌≡◌, ◌≤◌, ◌<◌, ◌+◌, ◌*◌, ◌/◌, ◌%◌, ◌^◌, ℕ, List, Some, length};
ghost use Rattle.command_layout.specs.Values.{CommandValue};
ghost use Rattle.field_machine.specs.Places.{FitsIn, Reads};
ghost use Rattle.field_machine.specs.declared.left.Left.TheVariants as left;
ghost use Rattle.command_codecs.specs.CommandCursor.{digits_of, heard, left_of};
ghost use Rattle.command_codecs.specs.Hearing.{Says, nothing_said, with_text};

use crate::command::Command;
use crate::cursor::NextField;
use avl_values::Imei;

/// What a command has said before its text. While the IMEI is read it is the number of the digits so far.
#[derive(Clone, Copy)]
pub struct Said {
    codec: u8,
    kind: u8,
    time: Option<u32>,
    imei: Option<Imei>,
}

/// The digits so far, and two more.
fn with_pair(imei: Option<Imei>, pair: u64) -> Option<Imei>
    requires { pair < 256 }
    ensures { digits_of imei * 100 + (pair / 16 * 10 + pair % 16) < 10 ^ 15 → result ≡ Some (digits_of imei * 100 + (pair / 16 * 10 + pair % 16)) }
{
    let digits = imei.map_or(0, |imei| imei.number());
    Imei::from_number(digits * 100 + (pair / 16 * 10 + pair % 16))
}

/// How long the text is once this field says its own.
pub fn text_heard(at: NextField, text: u32) -> u32
    ensures { (v : CommandValue) → (field : List ℕ) → left_of at ≡ left.Field (length field) → length v.text ≡ text → length (heard at v field).text ≡ result }
{
    match at {
        NextField::Text(length) => length,
        _ => text,
    }
}

impl Said {
    ghost use Rattle.command_codecs.specs.Views.{value_of};

    /// Before the first field.
    pub fn nothing() -> Said
        ensures { Says result nothing_said }
    {
        Said {
            codec: 0,
            kind: 0,
            time: None,
            imei: None,
        }
    }

    /// Once the field at this place says its value too.
    pub fn heard(self, at: NextField, value: u64) -> Said
        requires { FitsIn (left_of at) value }
        ensures { (v : CommandValue) → (field : List ℕ) → left_of at ≡ left.Field (length field) → Reads field value → Says self v → Says result (heard at v field) }
    {
        match at {
            NextField::Codec => Said {
                codec: value as u8,
                ..self
            },
            NextField::Kind(_) => Said {
                kind: value as u8,
                ..self
            },
            NextField::Size(_) => Said {
                time: None,
                imei: None,
                ..self
            },
            NextField::Time(_, _) => Said {
                time: Some(value as u32),
                imei: None,
                ..self
            },
            NextField::FirstDigit(_) => Said {
                imei: Imei::from_number(value),
                ..self
            },
            NextField::Digits(_, _) => Said {
                imei: with_pair(self.imei, value),
                ..self
            },
            NextField::Quantity(_)
            | NextField::Text(_)
            | NextField::LastQuantity
            | NextField::End => self,
        }
    }

    /// The command that has said this, and this text.
    pub fn with_text<'a>(self, text: &'a [u8]) -> Command<'a>
        ensures { value_of result ≡ with_text self text.now }
    {
        Command {
            codec: self.codec,
            kind: self.kind,
            time: self.time,
            imei: self.imei,
            text,
        }
    }
}
