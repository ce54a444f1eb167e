//! Pieces of a text, each put last.
ghost use Rattle.std.specs.Prelude.{◌≡◌, ◌++◌, ◌∷◌, OnOk, decimal};
ghost use Rattle.std.specs.Fmt.{signed_decimal};
ghost use Rattle.journey_script.specs.Table.{spell_limit, spell_whose};

use avl_values::NoMemory;
use itoa::Buffer;
use trial_model::Who;

/// A piece, put last. NoMemory where a growth was refused.
pub fn push(text: &mut Vec<u8>, piece: &[u8]) -> Result<(), NoMemory>
    ensures { OnOk result (text.new.items ≡ text.old.items ++ piece.now) }
{
    text.extend_from_slice(piece)?;
    Ok(())
}

/// A space, and the field after it.
pub fn push_field(text: &mut Vec<u8>, field: &[u8]) -> Result<(), NoMemory>
    ensures { OnOk result (text.new.items ≡ text.old.items ++ (32 ∷ field.now)) }
{
    text.push(b' ')?;
    push(text, field)
}

/// A space, and a number in decimal digits.
pub fn push_number(text: &mut Vec<u8>, number: u64) -> Result<(), NoMemory>
    ensures { OnOk result (text.new.items ≡ text.old.items ++ (32 ∷ decimal number)) }
{
    let mut digits = Buffer::new();
    push_field(text, digits.format(number).as_bytes())
}

/// A space, and a number in decimal digits, after a `-` where it is below 0.
pub fn push_signed(text: &mut Vec<u8>, number: i32) -> Result<(), NoMemory>
    ensures { OnOk result (text.new.items ≡ text.old.items ++ (32 ∷ signed_decimal number)) }
{
    let mut digits = Buffer::new();
    push_field(text, digits.format(number).as_bytes())
}

/// A space, and a number of bytes, or `-` for no limit.
pub fn push_limit(text: &mut Vec<u8>, limit: Option<u32>) -> Result<(), NoMemory>
    ensures { OnOk result (text.new.items ≡ text.old.items ++ (32 ∷ spell_limit limit)) }
{
    match limit {
        Some(bytes) => push_number(text, u64::from(bytes)),
        None => push_field(text, b"-"),
    }
}

/// A space, and a device's 15 digits, or `server`.
pub fn push_whose(text: &mut Vec<u8>, who: Who) -> Result<(), NoMemory>
    ensures { OnOk result (text.new.items ≡ text.old.items ++ (32 ∷ spell_whose who)) }
{
    match who {
        Who::Device(imei) => push_field(text, &imei.digits()),
        Who::Server => push_field(text, b"server"),
    }
}
