//! Words that a field may be one of, and their names.
ghost use Rattle.std.specs.Prelude.{◌≡◌};
ghost use Rattle.journey_script.specs.Words.{codec_name, codecs, flag_name, flags, named, operand_name, operands, order_name, orders, tear_name, tears};

use avl_values::{Codec, Order};
use io_operands::Operand;
use trial_model::Tear;

const CODECS: [Codec; 3] = [Codec::C8, Codec::C8E, Codec::C16];

const ORDERS: [Order; 2] = [Order::Oldest, Order::Newest];

const FLAGS: [bool; 2] = [true, false];

const OPERANDS: [Operand; 6] = [
    Operand::Exit,
    Operand::Entrance,
    Operand::Both,
    Operand::Hysteresis,
    Operand::Change,
    Operand::Monitoring,
];

const TEARS: [Tear; 5] = [Tear::Keep, Tear::New, Tear::Zero, Tear::AllOpen, Tear::Half];

/// The word for a codec: `8`, `8E` or `16`.
pub fn codec_name(codec: Codec) -> &'static str
    ensures { result.now ≡ codec_name codec }
{
    match codec {
        Codec::C8 => "8",
        Codec::C8E => "8E",
        Codec::C16 => "16",
    }
}

/// The codec that a word names; None for any other text.
pub fn codec(text: &[u8]) -> Option<Codec>
    ensures { result ≡ named codec_name codecs text.now }
{
    CODECS
        .iter()
        .copied()
        .find(|codec| codec_name(*codec).as_bytes() == text)
}

/// The word for an order of sending: `oldest` or `newest`.
pub fn order_name(order: Order) -> &'static str
    ensures { result.now ≡ order_name order }
{
    match order {
        Order::Oldest => "oldest",
        Order::Newest => "newest",
    }
}

/// The order of sending that a word names; None for any other text.
pub fn order(text: &[u8]) -> Option<Order>
    ensures { result ≡ named order_name orders text.now }
{
    ORDERS
        .iter()
        .copied()
        .find(|order| order_name(*order).as_bytes() == text)
}

/// Whether the server knows a device.
pub fn flag_name(known: bool) -> &'static str
    ensures { result.now ≡ flag_name known }
{
    if known { "known" } else { "stranger" }
}

/// Whether the server knows the device: `known` or `stranger`; None for any other text.
pub fn flag(text: &[u8]) -> Option<bool>
    ensures { result ≡ named flag_name flags text.now }
{
    FLAGS
        .iter()
        .copied()
        .find(|known| flag_name(*known).as_bytes() == text)
}

/// The word for an operand of an I/O setting.
pub fn operand_name(operand: Operand) -> &'static str
    ensures { result.now ≡ operand_name operand }
{
    match operand {
        Operand::Exit => "exit",
        Operand::Entrance => "entrance",
        Operand::Both => "both",
        Operand::Hysteresis => "hysteresis",
        Operand::Change => "change",
        Operand::Monitoring => "monitoring",
    }
}

/// The operand that a word names; None for any other text.
pub fn operand(text: &[u8]) -> Option<Operand>
    ensures { result ≡ named operand_name operands text.now }
{
    OPERANDS
        .iter()
        .copied()
        .find(|operand| operand_name(*operand).as_bytes() == text)
}

/// The word for what a power loss leaves of a write.
pub fn tear_name(tear: Tear) -> &'static str
    ensures { result.now ≡ tear_name tear }
{
    match tear {
        Tear::Keep => "keep",
        Tear::New => "new",
        Tear::Zero => "zero",
        Tear::AllOpen => "open",
        Tear::Half => "half",
    }
}

/// The tear that a word names; None for any other text.
pub fn tear(text: &[u8]) -> Option<Tear>
    ensures { result ≡ named tear_name tears text.now }
{
    TEARS
        .iter()
        .copied()
        .find(|tear| tear_name(*tear).as_bytes() == text)
}
