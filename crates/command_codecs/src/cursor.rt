//! Where in a command the next field stands.
ghost use Rattle.std.specs.Prelude.{◌≡◌, ◌+◌, ◌-◌, ◌≤◌, ◌<◌, ℕ, List, None, Ok, Some, IfOk, IfSome, length};
ghost use Rattle.layout.specs.Fields.{number};
ghost use Rattle.command_layout.specs.Table.{least_size};
ghost use Rattle.command_layout.specs.Values.{CommandValue};
ghost use Rattle.command_layout.specs.declared.way.Way.{Way};
ghost use Rattle.command_layout.specs.CommandRows.{imei_rows, text_rows};
ghost use Rattle.field_machine.specs.Places.{FitsIn, Reads, turns};
ghost use Rattle.field_machine.specs.declared.left.Left.TheVariants as left;
ghost use Rattle.command_codecs.specs.CommandCursor.{Follows, left_of, rows_from, said};
ghost use Rattle.command_codecs.specs.Views.{row_is};

use crate::row::{Row, row_of};
use avl_values::FaultKind;
use command_layout::Way;
use field_machine::Left;

/// The next field of a command, or its end.
#[derive(Clone, Copy)]
pub enum NextField {
    Codec,
    Quantity(Row),
    Kind(Row),
    Size(Row),
    /// The time, whether an IMEI comes after it, and the length of the text.
    Time(bool, u32),
    /// The first byte of an IMEI, and the length of the text.
    FirstDigit(u32),
    /// A later byte of an IMEI, how many come after it, and the length of the text.
    Digits(u8, u32),
    Text(u32),
    LastQuantity,
    End,
}

fn after_codec(way: Way, value: u64) -> Result<NextField, FaultKind>
    requires { value < 256 }
    ensures follows { (total : ℕ) → (v : CommandValue) → (field : List ℕ) → number field ≡ value → Follows way total NextField.Codec v field result }
    ensures turns { IfOk result (λ cursor. turns (left_of cursor) ≡ 0) }
{
    match row_of(way, value as u8) {
        Some(row) => Ok(NextField::Quantity(row)),
        None => Err(FaultKind::UnknownCodec),
    }
}

fn after_quantity(row: Row, value: u64) -> Result<NextField, FaultKind>
    ensures follows { (way : Way) → (total : ℕ) → (v : CommandValue) → (field : List ℕ) → number field ≡ value → Follows way total (NextField.Quantity row) v field result }
    ensures turns { IfOk result (λ cursor. turns (left_of cursor) ≡ 0) }
{
    if value == 1 {
        Ok(NextField::Kind(row))
    } else {
        Err(FaultKind::Quantity)
    }
}

fn after_kind(row: Row, value: u64) -> Result<NextField, FaultKind>
    requires { value < 256 }
    ensures follows { (way : Way) → (total : ℕ) → (v : CommandValue) → (field : List ℕ) → number field ≡ value → Follows way total (NextField.Kind row) v field result }
    ensures turns { IfOk result (λ cursor. turns (left_of cursor) ≡ 0) }
{
    if row.has_kind(value as u8) {
        Ok(NextField::Size(row))
    } else {
        Err(FaultKind::CommandType)
    }
}

/// What follows the time, or after the size where there is none.
fn at_imei(imei: bool, text: u32) -> NextField
    ensures rows { (way : Way) → (total : ℕ) → (v : CommandValue) → rows_from way total result (record v { imei = None }) ≡ imei_rows imei (λ i. text_rows text (λ t. said v v.time i t)) }
    ensures turns { turns (left_of result) ≤ 1 }
{
    if imei {
        NextField::FirstDigit(text)
    } else {
        NextField::Text(text)
    }
}

/// The length of the text where the size is right.
fn text_length(total: u32, least: u32, value: u64) -> Option<u32>
    ensures right { IfSome result (λ text. (value + 8 ≡ total) × (least ≤ value) × (text ≡ value - least)) }
    ensures wrong { result ≡ None → value + 8 ≡ total → least ≤ value → ⊥ }
{
    if total < 8 {
        return None;
    }
    let size = total - 8;
    if value != size as u64 || size < least {
        return None;
    }
    Some(size - least)
}

fn after_size(total: u32, row: Row, value: u64) -> Result<NextField, FaultKind>
    ensures follows { (way : Way) → (v : CommandValue) → (field : List ℕ) → number field ≡ value → Follows way total (NextField.Size row) v field result }
    ensures turns { IfOk result (λ cursor. turns (left_of cursor) ≤ 1) }
{
    match text_length(total, row.least(), value) {
        None => Err(FaultKind::CommandSize),
        Some(text) => {
            if row.time {
                Ok(NextField::Time(row.imei, text))
            } else {
                Ok(at_imei(row.imei, text))
            }
        }
    }
}

fn after_first_digit(text: u32, value: u64) -> Result<NextField, FaultKind>
    ensures follows { (way : Way) → (total : ℕ) → (v : CommandValue) → (field : List ℕ) → number field ≡ value → Follows way total (NextField.FirstDigit text) v field result }
    ensures turns { IfOk result (λ cursor. turns (left_of cursor) ≡ 0) }
{
    if value <= 9 {
        Ok(NextField::Digits(6, text))
    } else {
        Err(FaultKind::ImeiDigits)
    }
}

fn after_digits(behind: u8, text: u32, value: u64) -> Result<NextField, FaultKind>
    ensures follows { (way : Way) → (total : ℕ) → (v : CommandValue) → (field : List ℕ) → number field ≡ value → Follows way total (NextField.Digits behind text) v field result }
    ensures turns { IfOk result (λ cursor. turns (left_of cursor) ≤ 1) }
{
    if value / 16 > 9 {
        return Err(FaultKind::ImeiDigits);
    }
    if value % 16 > 9 {
        return Err(FaultKind::ImeiDigits);
    }
    if behind == 0 {
        Ok(NextField::Text(text))
    } else {
        Ok(NextField::Digits(behind - 1, text))
    }
}

fn after_last(value: u64) -> Result<NextField, FaultKind>
    ensures follows { (way : Way) → (total : ℕ) → (v : CommandValue) → (field : List ℕ) → number field ≡ value → Follows way total NextField.LastQuantity v field result }
    ensures turns { IfOk result (λ cursor. turns (left_of cursor) ≡ 0) }
{
    if value == 1 {
        Ok(NextField::End)
    } else {
        Err(FaultKind::Quantity)
    }
}

impl NextField {
    /// The width of the next field, if one is left.
    pub fn left(self) -> Left<()>
        ensures { result ≡ left_of self }
    {
        match self {
            NextField::Size(_) | NextField::Time(_, _) => Left::Field(4),
            NextField::Text(text) => Left::Field(text as u64),
            NextField::Codec
            | NextField::Quantity(_)
            | NextField::Kind(_)
            | NextField::FirstDigit(_)
            | NextField::Digits(_, _)
            | NextField::LastQuantity => Left::Field(1),
            NextField::End => Left::Nothing(()),
        }
    }

    /// What follows a field of this value, or the rule that the field breaks.
    pub fn next(self, way: Way, total: u32, value: u64) -> Result<NextField, FaultKind>
        requires { FitsIn (left_of self) value }
        ensures follows { (v : CommandValue) → (field : List ℕ) → left_of self ≡ left.Field (length field) → Reads field value → Follows way total self v field result }
        ensures turns { IfOk result (λ cursor. turns (left_of cursor) + turns (left_of self) ≤ 1) }
    {
        match self {
            NextField::Codec => after_codec(way, value),
            NextField::Quantity(row) => after_quantity(row, value),
            NextField::Kind(row) => after_kind(row, value),
            NextField::Size(row) => after_size(total, row, value),
            NextField::Time(imei, text) => Ok(at_imei(imei, text)),
            NextField::FirstDigit(text) => after_first_digit(text, value),
            NextField::Digits(behind, text) => after_digits(behind, text, value),
            NextField::Text(_) => Ok(NextField::LastQuantity),
            NextField::LastQuantity => after_last(value),
            NextField::End => Ok(NextField::End),
        }
    }
}
