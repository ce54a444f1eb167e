//! Where in a data body the next field stands.
ghost use Rattle.std.specs.Prelude.{◌≡◌, ◌<◌, ◌≤◌, ◌+◌, ℕ, List, length, Some, IfOk};
ghost use Rattle.layout.specs.Fields.{number};
ghost use Rattle.field_machine.specs.Places.{Follows, Reads, turns};
ghost use Rattle.field_machine.specs.declared.left.Left.TheVariants as left;
ghost use Rattle.record_codecs.specs.RecordCursor.{width_in};
ghost use Rattle.record_codecs.specs.BodyCursor.{left_of, rows_at, records_left, StandsAt};

use crate::in_record::InRecord;
use avl_values::{Codec, FaultKind};
use field_machine::{Cursor, Left, Place};
use record_layout::PacketHead;

/// A place in a data body: before its next field, or at its end. `Codec` is the first.
#[derive(Clone, Copy)]
pub enum PacketPlace {
    Codec,
    Count(Codec),
    /// A field of a record, after which N records stand.
    Record(PacketHead, u8, InRecord),
    LastCount(PacketHead),
    End(PacketHead),
}

/// The first field of N records, or of what follows the last.
#[inline(always)]
fn next_record(head: PacketHead, left: u8) -> PacketPlace
    ensures rows { rows_at result ≡ records_left head left }
    ensures turns { turns (left_of result) ≡ 0 }
{
    if left == 0 {
        PacketPlace::LastCount(head)
    } else {
        let first = InRecord::first(head.codec);
        PacketPlace::Record(head, left - 1, first)
    }
}

#[inline(always)]
fn after_codec_id(value: u64) -> Result<PacketPlace, FaultKind>
    requires { value < 256 }
    ensures follows { (field : List ℕ) → number field ≡ value → Follows StandsAt (rows_at PacketPlace.Codec) field result }
    ensures turns { IfOk result (λ place. turns (left_of place) ≡ 0) }
{
    match Codec::from_id(value as u8) {
        Some(codec) => Ok(PacketPlace::Count(codec)),
        None => Err(FaultKind::UnknownCodec),
    }
}

#[inline(always)]
fn after_count(codec: Codec, value: u64) -> Result<PacketPlace, FaultKind>
    requires { value < 256 }
    ensures follows { (field : List ℕ) → number field ≡ value → Follows StandsAt (rows_at (PacketPlace.Count codec)) field result }
    ensures turns { IfOk result (λ place. turns (left_of place) ≡ 0) }
{
    if value == 0 {
        return Err(FaultKind::NoRecords);
    }
    let count = value as u8;
    Ok(next_record(PacketHead { codec, count }, count))
}

#[inline(always)]
fn after_last_count(head: PacketHead, value: u64) -> Result<PacketPlace, FaultKind>
    ensures follows { (field : List ℕ) → number field ≡ value → Follows StandsAt (rows_at (PacketPlace.LastCount head)) field result }
    ensures turns { IfOk result (λ place. turns (left_of place) ≡ 0) }
{
    if value == u64::from(head.count) {
        Ok(PacketPlace::End(head))
    } else {
        Err(FaultKind::CountMismatch)
    }
}

#[inline(always)]
fn after_field(
    head: PacketHead,
    left: u8,
    at: InRecord,
    value: u64,
) -> Result<PacketPlace, FaultKind>
    ensures follows { (field : List ℕ) → length field ≡ width_in at → Reads field value → Follows StandsAt (rows_at (PacketPlace.Record head left at)) field result }
    ensures turns { IfOk result (λ place. turns (left_of place) + turns (left_of (PacketPlace.Record head left at)) ≤ 1) }
{
    match at.next(value) {
        Ok(Some(next)) => Ok(PacketPlace::Record(head, left, next)),
        Ok(None) => Ok(next_record(head, left)),
        Err(kind) => Err(kind),
    }
}

impl Place for PacketPlace {
    ghost use Rattle.record_layout.specs.declared.head.PacketHead.{PacketHead};
    ghost use Rattle.record_codecs.specs.BodyCursor.{StandsAt, SaysHead};
    ghost use Rattle.record_codecs.specs.CursorLaws.{body_leaves};

    type Head = PacketHead;

    ghost Value = { PacketHead };

    ghost says = { SaysHead };

    ghost left_of = { left_of };

    ghost stands = { StandsAt };

    ghost leaves = { body_leaves };

    #[inline(always)]
    fn left(self) -> Left<PacketHead> {
        match self {
            PacketPlace::Codec | PacketPlace::Count(_) | PacketPlace::LastCount(_) => Left::Field(
                1,
            ),
            PacketPlace::Record(_, _, at) => Left::Field(at.width()),
            PacketPlace::End(head) => Left::Nothing(head),
        }
    }
}

impl Cursor for PacketPlace {
    #[inline(always)]
    fn next(self, value: u64) -> Result<PacketPlace, FaultKind> {
        match self {
            PacketPlace::Codec => after_codec_id(value),
            PacketPlace::Count(codec) => after_count(codec, value),
            PacketPlace::Record(head, left, at) => after_field(head, left, at, value),
            PacketPlace::LastCount(head) => after_last_count(head, value),
            PacketPlace::End(head) => Ok(PacketPlace::End(head)),
        }
    }
}
