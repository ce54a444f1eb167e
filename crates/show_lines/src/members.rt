//! Members of an object, each sent to a serializer as a key and a value.
ghost use Rattle.std.specs.Prelude.{◌∷◌, [], codes, decimal, OnOk};
ghost use Rattle.std.specs.Fmt.{signed_decimal};
ghost use Rattle.avl_values.specs.Imei.{imei_text};
ghost use Rattle.hex.specs.Hex.{encode_lower};
ghost use Rattle.json.specs.Token.{begin_object, boolean as boolean_token, end_object, key, number as number_token, string};
ghost use Rattle.layout.specs.Bytes.{AreBytes};
ghost use Rattle.show_lines.specs.Sent.{Sends};
ghost use Rattle.show_lines.specs.Tokens.{imei_or_null as imei_or_null_token, item_tokens, number_or_null as number_or_null_token};

use avl_values::Imei;
use serde::Serializer;
use std::alloc::Global;

/// Begins an object of N members.
pub(crate) fn begin<S: Serializer>(out: &mut S, members: usize) -> Result<(), S::Error>
    ensures { OnOk result (Sends (begin_object ∷ []) (S.written out.old) (S.written out.new)) }
{
    out.begin_map(Some(members))
}

/// Ends an object.
pub(crate) fn end<S: Serializer>(out: &mut S) -> Result<(), S::Error>
    ensures { OnOk result (Sends (end_object ∷ []) (S.written out.old) (S.written out.new)) }
{
    out.end_map()
}

pub(crate) fn number<S: Serializer>(out: &mut S, name: &str, n: u64) -> Result<(), S::Error>
    ensures { OnOk result (Sends (key name.now ∷ number_token (decimal n) ∷ [])
        (S.written out.old) (S.written out.new)) }
{
    out.key(name)?;
    out.u64(n)
}

pub(crate) fn signed<S: Serializer>(out: &mut S, name: &str, n: i64) -> Result<(), S::Error>
    ensures { OnOk result (Sends (key name.now ∷ number_token (signed_decimal n) ∷ [])
        (S.written out.old) (S.written out.new)) }
{
    out.key(name)?;
    out.i64(n)
}

pub(crate) fn boolean<S: Serializer>(out: &mut S, name: &str, b: bool) -> Result<(), S::Error>
    ensures { OnOk result (Sends (key name.now ∷ boolean_token b ∷ [])
        (S.written out.old) (S.written out.new)) }
{
    out.key(name)?;
    out.bool(b)
}

pub(crate) fn text<S: Serializer>(out: &mut S, name: &str, text: &str) -> Result<(), S::Error>
    ensures { OnOk result (Sends (key name.now ∷ string text.now ∷ [])
        (S.written out.old) (S.written out.new)) }
{
    out.key(name)?;
    out.str(text)
}

/// Which item it is, and the line.
pub(crate) fn item<S: Serializer>(out: &mut S, item: &str, line: u32) -> Result<(), S::Error>
    ensures { OnOk result (Sends (item_tokens item.now line) (S.written out.old) (S.written out.new)) }
{
    text(out, "item", item)?;
    number(out, "line", line as u64)
}

/// A number, or `null`.
pub(crate) fn number_or_null<S: Serializer>(
    out: &mut S,
    name: &str,
    n: Option<u32>,
) -> Result<(), S::Error>
    ensures { OnOk result (Sends (key name.now ∷ number_or_null_token n ∷ [])
        (S.written out.old) (S.written out.new)) }
{
    out.key(name)?;
    match n {
        Some(n) => out.u64(n as u64),
        None => out.unit(),
    }
}

/// The digits of an IMEI.
fn digits<S: Serializer>(out: &mut S, imei: Imei) -> Result<(), S::Error>
    ensures { OnOk result (Sends (string (imei_text imei) ∷ []) (S.written out.old) (S.written out.new)) }
{
    match str::from_utf8(&imei.digits()) {
        Ok(digits) => out.str(digits),
        Err(_) => unreachable!(),
    }
}

pub(crate) fn imei<S: Serializer>(out: &mut S, imei: Imei) -> Result<(), S::Error>
    ensures { OnOk result (Sends (key (codes "imei") ∷ string (imei_text imei) ∷ [])
        (S.written out.old) (S.written out.new)) }
{
    out.key("imei")?;
    digits(out, imei)
}

/// An IMEI, or `null`.
pub(crate) fn imei_or_null<S: Serializer>(out: &mut S, imei: Option<Imei>) -> Result<(), S::Error>
    ensures { OnOk result (Sends (key (codes "imei") ∷ imei_or_null_token imei ∷ [])
        (S.written out.old) (S.written out.new)) }
{
    out.key("imei")?;
    match imei {
        Some(imei) => digits(out, imei),
        None => out.unit(),
    }
}

/// Bytes in lower-case hexadecimal.
pub(crate) fn hex<S: Serializer>(out: &mut S, alloc: Global, bytes: &[u8]) -> Result<(), S::Error>
    ensures sent { OnOk result (Sends (string (encode_lower bytes.now) ∷ [])
        (S.written out.old) (S.written out.new)) }
    ensures bytes { AreBytes bytes.now }
{
    match hex::encode(alloc, bytes) {
        Ok(digits) => out.str(digits.as_str()),
        Err(_) => Err(out.custom("no memory")),
    }
}
