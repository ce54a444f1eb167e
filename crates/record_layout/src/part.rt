ghost use Rattle.std.specs.Prelude.{◌≡◌};
ghost use Rattle.record_layout.specs.Table.{count_width, id_width, parts_of};

use Field::{
    Altitude, Angle, Event, Generation, Latitude, Longitude, Priority, Satellites, Speed, Time,
};
use Part::{Pairs, Plain, Total, Triples};
use avl_values::Width::{W1, W2, W4, W8};
use avl_values::{Codec, Width};

/// A number that stands once in a record (Teltonika, Data Sending Protocols, AVL data).
#[derive(Clone, Copy, Debug, PartialEq, Eq)]
pub enum Field {
    /// Milliseconds since 1970 UTC.
    Time,
    /// 0 low, 1 high, 2 panic.
    Priority,
    /// 10^-7 degrees, in two's complement.
    Longitude,
    /// 10^-7 degrees, in two's complement.
    Latitude,
    /// Metres, in two's complement.
    Altitude,
    /// Degrees from north.
    Angle,
    Satellites,
    /// Kilometres an hour.
    Speed,
    /// The id of the I/O element that made the record, 0 where none did.
    Event,
    /// What made the record.
    Generation,
}

/// A part of a record (Teltonika, Data Sending Protocols: Codec 8, Codec 8 Extended, Codec 16).
#[derive(Clone, Copy, Debug, PartialEq, Eq)]
pub enum Part {
    /// A number in this width.
    Plain(Field, Width),
    /// The number of I/O elements in all the groups that follow.
    Total(Width),
    /// A count of this width, and as many pairs of id and value of these widths.
    Pairs(Width, Width, Width),
    /// A count of this width, and as many triples of id, length and as many bytes, with id and length of these widths.
    Triples(Width, Width, Width),
}

const PARTS_C8: [Part; 14] = [
    Plain(Time, W8),
    Plain(Priority, W1),
    Plain(Longitude, W4),
    Plain(Latitude, W4),
    Plain(Altitude, W2),
    Plain(Angle, W2),
    Plain(Satellites, W1),
    Plain(Speed, W2),
    Plain(Event, W1),
    Total(W1),
    Pairs(W1, W1, W1),
    Pairs(W1, W1, W2),
    Pairs(W1, W1, W4),
    Pairs(W1, W1, W8),
];

const PARTS_C8E: [Part; 15] = [
    Plain(Time, W8),
    Plain(Priority, W1),
    Plain(Longitude, W4),
    Plain(Latitude, W4),
    Plain(Altitude, W2),
    Plain(Angle, W2),
    Plain(Satellites, W1),
    Plain(Speed, W2),
    Plain(Event, W2),
    Total(W2),
    Pairs(W2, W2, W1),
    Pairs(W2, W2, W2),
    Pairs(W2, W2, W4),
    Pairs(W2, W2, W8),
    Triples(W2, W2, W2),
];

const PARTS_C16: [Part; 15] = [
    Plain(Time, W8),
    Plain(Priority, W1),
    Plain(Longitude, W4),
    Plain(Latitude, W4),
    Plain(Altitude, W2),
    Plain(Angle, W2),
    Plain(Satellites, W1),
    Plain(Speed, W2),
    Plain(Event, W2),
    Plain(Generation, W1),
    Total(W1),
    Pairs(W1, W2, W1),
    Pairs(W1, W2, W2),
    Pairs(W1, W2, W4),
    Pairs(W1, W2, W8),
];

/// The parts of a record in this codec, in their order.
pub fn parts(codec: Codec) -> &'static [Part]
    ensures { result.now ≡ parts_of codec }
{
    match codec {
        Codec::C8 => &PARTS_C8,
        Codec::C8E => &PARTS_C8E,
        Codec::C16 => &PARTS_C16,
    }
}

/// The width of an I/O element's id, and of an event's: 1 byte in Codec 8, 2 in the others.
pub fn id_width(codec: Codec) -> Width
    ensures { result ≡ id_width codec }
{
    match codec {
        Codec::C8 => Width::W1,
        Codec::C8E | Codec::C16 => Width::W2,
    }
}

/// The width of a group's count, and of the number of all elements: 2 bytes in Codec 8 Extended, 1 in the others.
pub fn count_width(codec: Codec) -> Width
    ensures { result ≡ count_width codec }
{
    match codec {
        Codec::C8 | Codec::C16 => Width::W1,
        Codec::C8E => Width::W2,
    }
}
