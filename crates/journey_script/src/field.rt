//! What one field says, by its kind.
ghost use Rattle.std.specs.Prelude.{◌≡◌, ◌≤◌, ◌^◌, ◌-◌, ◌<◌, ◌≤ℤ◌, pos, negsuc, IfOk};
ghost use Rattle.journey_script.specs.Table.{CodecField, FlagField, ImeiField, LimitField, NumberField, OperandField, OrderField, SignedField, TearField, WhoseField, read_field};

use crate::fault::ScriptFault;
use crate::{choice, number};
use avl_values::{Codec, Imei, Order};
use io_operands::Operand;
use trial_model::{Tear, Who};

/// A field of 15 digits; else BadImei.
pub fn imei(text: &[u8]) -> Result<Imei, ScriptFault>
    ensures { result ≡ read_field ImeiField text.now }
{
    number::imei(text).ok_or(ScriptFault::BadImei)
}

/// `server`, or a field of 15 digits; else BadImei.
pub fn whose(text: &[u8]) -> Result<Who, ScriptFault>
    ensures { result ≡ read_field WhoseField text.now }
{
    if text == b"server".as_slice() {
        return Ok(Who::Server);
    }
    match number::imei(text) {
        Some(imei) => Ok(Who::Device(imei)),
        None => Err(ScriptFault::BadImei),
    }
}

/// A decimal number from `low` to `high` without a leading zero; else BadNumber.
pub fn number(low: u64, high: u64, text: &[u8]) -> Result<u64, ScriptFault>
    ensures number { result ≡ read_field (NumberField low high) text.now }
    ensures range { IfOk result (λ n. n ≤ high) }
{
    number::number(low, high, text).ok_or(ScriptFault::BadNumber)
}

/// A decimal number from -(`limit` + 1) to `limit`, without a leading zero and not `-0`; else BadNumber.
pub fn signed(limit: u32, text: &[u8]) -> Result<i32, ScriptFault>
    requires { limit < 2 ^ 31 }
    ensures number { result ≡ read_field (SignedField limit) text.now }
    ensures range { IfOk result (λ z. (z ≤ℤ pos limit) × (negsuc limit ≤ℤ z)) }
{
    number::signed(limit, text).ok_or(ScriptFault::BadNumber)
}

/// A number of bytes below 2^32, or `-` for no limit; else BadNumber.
pub fn limit(text: &[u8]) -> Result<Option<u32>, ScriptFault>
    ensures { result ≡ read_field LimitField text.now }
{
    if text == b"-".as_slice() {
        return Ok(None);
    }
    match number::number(0, 0xffff_ffff, text) {
        Some(n) => Ok(Some(n as u32)),
        None => Err(ScriptFault::BadNumber),
    }
}

/// A codec's word; else BadChoice.
pub fn codec(text: &[u8]) -> Result<Codec, ScriptFault>
    ensures { result ≡ read_field CodecField text.now }
{
    choice::codec(text).ok_or(ScriptFault::BadChoice)
}

/// An order's word; else BadChoice.
pub fn order(text: &[u8]) -> Result<Order, ScriptFault>
    ensures { result ≡ read_field OrderField text.now }
{
    choice::order(text).ok_or(ScriptFault::BadChoice)
}

/// `known` or `stranger`; else BadChoice.
pub fn flag(text: &[u8]) -> Result<bool, ScriptFault>
    ensures { result ≡ read_field FlagField text.now }
{
    choice::flag(text).ok_or(ScriptFault::BadChoice)
}

/// An operand's word; else BadChoice.
pub fn operand(text: &[u8]) -> Result<Operand, ScriptFault>
    ensures { result ≡ read_field OperandField text.now }
{
    choice::operand(text).ok_or(ScriptFault::BadChoice)
}

/// A tear's word; else BadChoice.
pub fn tear(text: &[u8]) -> Result<Tear, ScriptFault>
    ensures { result ≡ read_field TearField text.now }
{
    choice::tear(text).ok_or(ScriptFault::BadChoice)
}
