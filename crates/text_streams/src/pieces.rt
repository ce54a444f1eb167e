ghost use Rattle.std.specs.Prelude.{◌≡◌, ◌++◌, OnOk, OnErr, decimal};
ghost use Rattle.avl_values.specs.Imei.{imei_text};

use avl_values::{Imei, NoMemory};
use itoa::Buffer;

/// Appends a piece. NoMemory changes nothing.
pub fn push(text: &mut Vec<u8>, piece: &[u8]) -> Result<(), NoMemory>
    ensures ok { OnOk result (text.new.items ≡ text.old.items ++ piece.now) }
    ensures err { OnErr result (text.new.items ≡ text.old.items) }
{
    text.extend_from_slice(piece)?;
    Ok(())
}

/// Appends a number in decimal. NoMemory changes nothing.
pub fn push_decimal(text: &mut Vec<u8>, number: u64) -> Result<(), NoMemory>
    ensures ok { OnOk result (text.new.items ≡ text.old.items ++ decimal number) }
    ensures err { OnErr result (text.new.items ≡ text.old.items) }
{
    let mut digits = Buffer::new();
    push(text, digits.format(number).as_bytes())
}

/// Appends the 15 digits of an IMEI. NoMemory changes nothing.
pub fn push_imei(text: &mut Vec<u8>, imei: &Imei) -> Result<(), NoMemory>
    ensures ok { OnOk result (text.new.items ≡ text.old.items ++ imei_text imei.now) }
    ensures err { OnErr result (text.new.items ≡ text.old.items) }
{
    push(text, &imei.digits())
}
