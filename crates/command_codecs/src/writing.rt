//! Commands as bytes.
ghost use Rattle.std.specs.Prelude.{◌≡◌, ◌<◌, ◌≤◌, ◌+◌, ◌↔◌, [], ◌++◌, Some, length, IsTrue};
ghost use Rattle.std.specs.Bool.{OnFalse, OnTrue};
ghost use Rattle.arrayvec.specs.ArrayVec.{array_vec_len};
ghost use Rattle.layout.specs.Bytes.{AreBytes};
ghost use Rattle.command_layout.specs.declared.way.Way.{Way};
ghost use Rattle.command_layout.specs.Spelling.{Fits, ImeiFits, IsCommand, TimeFits, command_of, content_of, imei_bytes, time_bytes, two_digits};
ghost use Rattle.command_layout.specs.Table.{WellFormed};
ghost use Rattle.command_codecs.specs.Views.{value_of};

use crate::command::Command;
use arrayvec::ArrayVec;
use avl_values::Imei;
use layout::put_all;

/// A body has one command.
const QUANTITY: u8 = 1;

fn two_digits(n: u64) -> u8
    ensures { result ≡ two_digits n }
{
    (n / 10 % 10 * 16 + n % 10) as u8
}

/// A zero digit and the 15 digits, one per half byte.
fn digit_pairs(imei: Imei) -> [u8; 8]
    ensures { result ≡ imei_bytes (Some imei) }
{
    let n = imei.number();
    [
        two_digits(n / 100_000_000_000_000),
        two_digits(n / 1_000_000_000_000),
        two_digits(n / 10_000_000_000),
        two_digits(n / 100_000_000),
        two_digits(n / 1_000_000),
        two_digits(n / 10_000),
        two_digits(n / 100),
        two_digits(n),
    ]
}

fn put_time(out: &mut ArrayVec<u8, 1268>, time: Option<u32>)
    requires { array_vec_len out.old + length (time_bytes time) ≤ 1268 }
    ensures bytes { out.new.items ≡ out.old.items ++ time_bytes time }
    ensures len { array_vec_len out.new ≡ array_vec_len out.old + length (time_bytes time) }
    ensures fit { TimeFits time }
{
    if let Some(seconds) = time {
        put_all(out, &seconds.to_be_bytes());
    }
}

fn put_imei(out: &mut ArrayVec<u8, 1268>, imei: Option<Imei>)
    requires { array_vec_len out.old + length (imei_bytes imei) ≤ 1268 }
    ensures bytes { out.new.items ≡ out.old.items ++ imei_bytes imei }
    ensures len { array_vec_len out.new ≡ array_vec_len out.old + length (imei_bytes imei) }
    ensures fit { ImeiFits imei }
{
    if let Some(imei) = imei {
        put_all(out, &digit_pairs(imei));
    }
}

/// The bytes of the time, where there is one.
fn time_length(time: Option<u32>) -> usize
    ensures is { result ≡ length (time_bytes time) }
    ensures few { result ≤ 4 }
{
    match time {
        Some(_) => 4,
        None => 0,
    }
}

/// The bytes of the IMEI, where there is one.
#[tactic(auto, using(crate::proofs::Digits::pairs_length))]
fn imei_length(imei: Option<Imei>) -> usize
    ensures is { result ≡ length (imei_bytes imei) }
    ensures few { result ≤ 8 }
{
    match imei {
        Some(_) => 8,
        None => 0,
    }
}

/// The whole body, for which there is room.
fn put_command(out: &mut ArrayVec<u8, 1268>, command: &Command<'_>, size: usize)
    requires empty { out.old.items ≡ [] }
    requires size { size ≡ length (content_of (value_of command.now)) }
    requires room { size ≤ 1260 }
    ensures bytes { out.new.items ≡ command_of (value_of command.now) }
    ensures fit { Fits (value_of command.now) }
{
    out.push(command.codec);
    out.push(QUANTITY);
    out.push(command.kind);
    put_all(out, &(size as u32).to_be_bytes());
    put_time(out, command.time);
    put_imei(out, command.imei);
    put_all(out, command.text);
    out.push(QUANTITY);
}

/// Writes the body of a command over what was in `out` (Teltonika, Data Sending Protocols: Codecs 12, 13, 14, 15). It is false,
/// with `out` empty, exactly where the body has more than 1,268 bytes. What is written is a command of each way in which the
/// value is well-formed.
#[tactic(auto, using(crate::proofs::Sizes::content_length, crate::proofs::Sizes::body_length))]
pub fn write_command(command: &Command<'_>, out: &mut ArrayVec<u8, 1268>) -> bool
    ensures room { IsTrue result ↔ (length (command_of (value_of command.now)) ≤ 1268) }
    ensures bytes { OnTrue result (out.new.items ≡ command_of (value_of command.now)) }
    ensures command { OnTrue result ((way : Way) → WellFormed way (value_of command.now) → IsCommand way (value_of command.now) out.new.items) }
    ensures empty { OnFalse result (out.new.items ≡ []) }
{
    out.clear();
    let head = time_length(command.time) + imei_length(command.imei);
    let text = command.text.len();
    if text > 1260 - head {
        return false;
    }
    put_command(out, command, head + text);
    true
}
