//! Where in a datagram the next field is.
ghost use Rattle.std.specs.Prelude.{◌≡◌, ◌+◌, ◌==◌, ◌^◌, ◌<◌, ℕ, suc, List, IfOk};
ghost use Rattle.layout.specs.Fields.{number as number_of};
ghost use Rattle.field_machine.specs.Places.{Follows, turns};
ghost use Rattle.frame_layout.specs.Logins.{digit_rows, login_rows};
ghost use Rattle.datagrams.specs.DatagramRows.{after_numbers, body_rows, length_row, numbers_rows};
ghost use Rattle.datagrams.specs.Places.{StandsAt, datagram_leaves, left_of};
ghost use Rattle.datagrams.specs.Values.{DatagramValue};

use avl_values::FaultKind;
use field_machine::{Cursor, Left, Place};
use record_codecs::PacketPlace;
use record_layout::PacketHead;

/// The next field of a datagram. What the fields say is read once all are judged, so that a place holds nothing of it.
#[derive(Clone, Copy)]
pub enum DatagramPlace {
    /// The length, in a datagram of N bytes.
    Length(u32),
    Packet,
    Unused,
    AvlPacket,
    ImeiLength,
    /// A digit of the IMEI, with how many come after it.
    Digit(u8),
    Body(PacketPlace),
}

fn length(total: u32, value: u64) -> Result<DatagramPlace, FaultKind>
    requires { value < 2 ^ 16 }
    ensures follows { (field : List ℕ) → number_of field ≡ value → Follows StandsAt (length_row (λ n. n + 2 == total) (numbers_rows after_numbers)) field result }
    ensures turns { IfOk result (λ next. turns (left_of next) ≡ 0) }
{
    if value + 2 == u64::from(total) {
        Ok(DatagramPlace::Packet)
    } else {
        Err(FaultKind::DatagramLength)
    }
}

#[tactic(auto, unfolding(frame_layout::specs::Logins::login_rows))]
fn imei_length(value: u64) -> Result<DatagramPlace, FaultKind>
    ensures follows { (field : List ℕ) → (says : (ℕ → List ℕ → DatagramValue)) → number_of field ≡ value → Follows StandsAt (login_rows (λ imei. body_rows (says imei))) field result }
    ensures turns { IfOk result (λ next. turns (left_of next) ≡ 0) }
{
    if value == 15 {
        Ok(DatagramPlace::Digit(14))
    } else {
        Err(FaultKind::LoginLength)
    }
}

#[tactic(auto, unfolding(frame_layout::specs::Logins::digit_rows))]
fn digit(left: u8, value: u64) -> Result<DatagramPlace, FaultKind>
    ensures follows { (field : List ℕ) → (says : (ℕ → List ℕ → DatagramValue)) → (n : ℕ) → number_of field ≡ value → Follows StandsAt (digit_rows (suc left) n (λ imei. body_rows (says imei))) field result }
    ensures turns { IfOk result (λ next. turns (left_of next) ≡ 0) }
{
    if value < 48 || value > 57 {
        Err(FaultKind::LoginDigit)
    } else if left > 0 {
        Ok(DatagramPlace::Digit(left - 1))
    } else {
        Ok(DatagramPlace::Body(PacketPlace::Codec))
    }
}

impl Place for DatagramPlace {
    ghost use Rattle.datagrams.specs.Places.{SaysNothing};

    type Head = PacketHead;

    ghost Value = { DatagramValue };

    ghost says = { SaysNothing };

    ghost left_of = { left_of };

    ghost stands = { StandsAt };

    ghost leaves = { datagram_leaves };

    fn left(self) -> Left<PacketHead> {
        match self {
            DatagramPlace::Length(_) | DatagramPlace::Packet | DatagramPlace::ImeiLength =>
                Left::Field(2),
            DatagramPlace::Unused | DatagramPlace::AvlPacket | DatagramPlace::Digit(_) =>
                Left::Field(1),
            DatagramPlace::Body(place) => place.left(),
        }
    }
}

impl Cursor for DatagramPlace {
    fn next(self, value: u64) -> Result<DatagramPlace, FaultKind> {
        match self {
            DatagramPlace::Length(total) => length(total, value),
            DatagramPlace::Packet => Ok(DatagramPlace::Unused),
            DatagramPlace::Unused => Ok(DatagramPlace::AvlPacket),
            DatagramPlace::AvlPacket => Ok(DatagramPlace::ImeiLength),
            DatagramPlace::ImeiLength => imei_length(value),
            DatagramPlace::Digit(left) => digit(left, value),
            DatagramPlace::Body(place) => match place.next(value) {
                Ok(next) => Ok(DatagramPlace::Body(next)),
                Err(kind) => Err(kind),
            },
        }
    }
}
