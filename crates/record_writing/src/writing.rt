//! Records as bytes.
ghost use Rattle.std.specs.Prelude.{◌≡◌, ◌<◌, ◌≤◌, ◌+◌, ◌↔◌, [], ◌++◌, length, All, IsOk, OnOk, OnErr};
ghost use Rattle.arrayvec.specs.ArrayVec.{array_vec_len};
ghost use Rattle.avl_values.specs.RecordValue.{value_of};
ghost use Rattle.avl_values.specs.declared.width.Width.TheVariants.{W1};
ghost use Rattle.record_layout.specs.Spelling.{HasNoOther, IsRecord};
ghost use Rattle.record_layout.specs.Table.{id_width};
ghost use Rattle.record_writing.specs.Length.{record_length};
ghost use Rattle.record_writing.specs.Pieces.{gps_bytes, GpsFits, head_bytes, HeadFits, generation_bytes, event_bytes, event_length, EventFits, groups_bytes, groups_length, GroupsFit, elements_bytes, elements_length, ElementsFit};
ghost use Rattle.record_writing.specs.Checks.{Checks};
ghost use Rattle.record_writing.specs.Refusal.{HasNarrowIds};

use crate::codec::{has_narrow_ids, is_in_codec};
use crate::length::has_room;
use crate::put::{put, put_group, put_nx};
use arrayvec::ArrayVec;
use avl_values::{AvlRecord, Codec, Gps, Io, Width};
use record_layout::{count_width, id_width};

/// Why a record isn't written.
#[derive(Clone, Copy, Debug, PartialEq, Eq)]
pub enum WriteFault {
    /// The codec has no elements of any length, or no generation type, and the value does.
    NotInCodec,
    /// Codec 8 has ids of one byte, and the event's or an element's needs two.
    IdTooWide,
    /// The record has more than 255 bytes.
    TooLong,
}

fn put_gps(out: &mut ArrayVec<u8, 255>, gps: &Gps)
    requires { array_vec_len out.old + 15 ≤ 255 }
    ensures bytes { out.new.items ≡ out.old.items ++ gps_bytes gps.now }
    ensures len { array_vec_len out.new ≡ array_vec_len out.old + 15 }
    ensures fit { GpsFits gps.now }
{
    put(out, Width::W4, gps.longitude.cast_unsigned() as u64);
    put(out, Width::W4, gps.latitude.cast_unsigned() as u64);
    put(out, Width::W2, gps.altitude.cast_unsigned() as u64);
    put(out, Width::W2, gps.angle as u64);
    put(out, Width::W1, gps.satellites as u64);
    put(out, Width::W2, gps.speed as u64);
}

/// The first 24 bytes of a record.
fn put_head(out: &mut ArrayVec<u8, 255>, value: &AvlRecord)
    requires { array_vec_len out.old + 24 ≤ 255 }
    ensures bytes { out.new.items ≡ out.old.items ++ head_bytes value.now }
    ensures len { array_vec_len out.new ≡ array_vec_len out.old + 24 }
    ensures fit { HeadFits value.now }
{
    put(out, Width::W8, value.time);
    put(out, Width::W1, value.priority as u64);
    put_gps(out, &value.gps);
}

/// The event's id, and in Codec 16 the generation type.
fn put_event(out: &mut ArrayVec<u8, 255>, codec: Codec, value: &AvlRecord)
    requires room { array_vec_len out.old + event_length codec ≤ 255 }
    requires narrow { HasNarrowIds codec value.now }
    ensures bytes { out.new.items ≡ out.old.items ++ event_bytes codec value.now }
    ensures len { array_vec_len out.new ≡ array_vec_len out.old + event_length codec }
    ensures fit { EventFits codec value.now }
{
    let generation = value.generation as u64;
    put(out, id_width(codec), value.event as u64);
    if codec == Codec::C16 {
        put(out, Width::W1, generation);
    }
}

/// The groups of the elements of 1, 2, 4 and 8 bytes.
fn put_groups(out: &mut ArrayVec<u8, 255>, codec: Codec, ios: &[Io])
    requires room { array_vec_len out.old + groups_length codec ios.now ≤ 255 }
    requires ids { id_width codec ≡ W1 → All (λ io. io.id < 256) ios.now }
    requires few { length ios.now ≤ 112 }
    ensures bytes { out.new.items ≡ out.old.items ++ groups_bytes codec ios.now }
    ensures len { array_vec_len out.new ≡ array_vec_len out.old + groups_length codec ios.now }
    ensures fit { GroupsFit codec ios.now }
{
    let counts = count_width(codec);
    let ids = id_width(codec);
    put_group(out, counts, ids, Width::W1, ios);
    put_group(out, counts, ids, Width::W2, ios);
    put_group(out, counts, ids, Width::W4, ios);
    put_group(out, counts, ids, Width::W8, ios);
}

/// The number of elements, and all groups.
#[tactic(auto, using(crate::proofs::Pieces::few_elements, crate::proofs::Pieces::fits_count))]
fn put_elements(out: &mut ArrayVec<u8, 255>, codec: Codec, value: &AvlRecord)
    requires room { array_vec_len out.old + elements_length codec value.now ≤ 255 }
    requires in_codec { HasNoOther codec (value_of value.now) }
    requires narrow { HasNarrowIds codec value.now }
    ensures bytes { out.new.items ≡ out.old.items ++ elements_bytes codec value.now }
    ensures len { array_vec_len out.new ≡ array_vec_len out.old + elements_length codec value.now }
    ensures fit { ElementsFit codec value.now }
{
    let ios = value.ios.as_slice();
    put(out, count_width(codec), (ios.len() + value.nx.len()) as u64);
    put_groups(out, codec, ios);
    if codec == Codec::C8E {
        put_nx(out, &value.nx);
    }
}

/// A whole record, of a value that the codec has and that has room.
#[tactic(auto, using(crate::proofs::Pieces::length_pieces))]
fn put_record(out: &mut ArrayVec<u8, 255>, codec: Codec, value: &AvlRecord)
    requires empty { out.old.items ≡ [] }
    requires room { record_length codec (value_of value.now) ≤ 255 }
    requires in_codec { HasNoOther codec (value_of value.now) }
    requires narrow { HasNarrowIds codec value.now }
    ensures { IsRecord codec (value_of value.now) out.new.items }
{
    put_head(out, value);
    put_event(out, codec, value);
    put_elements(out, codec, value);
}

/// The first cause for which a value isn't written.
fn check(codec: Codec, value: &AvlRecord) -> Result<(), WriteFault>
    ensures { Checks codec value.now result }
{
    if !is_in_codec(codec, value) {
        return Err(WriteFault::NotInCodec);
    }
    if !has_narrow_ids(codec, value) {
        return Err(WriteFault::IdTooWide);
    }
    if !has_room(codec, value) {
        return Err(WriteFault::TooLong);
    }
    Ok(())
}

/// Writes the record of a value in a codec (Teltonika, Data Sending Protocols: Codec 8, Codec 8 Extended, Codec 16), in place of
/// what was in `out`. The refusals are judged in the order of the enum, and leave `out` empty; that a record has at most 255
/// bytes is this project's own limit. It takes no memory.
pub fn write_record(
    codec: Codec,
    value: &AvlRecord,
    out: &mut ArrayVec<u8, 255>,
) -> Result<(), WriteFault>
    ensures not_in_codec { (result ≡ Err WriteFault.NotInCodec) ↔ ¬ HasNoOther codec (value_of value.now) }
    ensures id_too_wide { (result ≡ Err WriteFault.IdTooWide) ↔ (HasNoOther codec (value_of value.now) × ¬ HasNarrowIds codec value.now) }
    ensures too_long { (result ≡ Err WriteFault.TooLong) ↔ (HasNoOther codec (value_of value.now) × HasNarrowIds codec value.now × (255 < record_length codec (value_of value.now))) }
    ensures written { IsOk result ↔ (HasNoOther codec (value_of value.now) × HasNarrowIds codec value.now × (record_length codec (value_of value.now) ≤ 255)) }
    ensures record { OnOk result (IsRecord codec (value_of value.now) out.new.items) }
    ensures empty { OnErr result (out.new.items ≡ []) }
{
    out.clear();
    check(codec, value)?;
    put_record(out, codec, value);
    Ok(())
}
