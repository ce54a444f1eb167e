//! The first bytes of a data body, judged.
ghost use Rattle.std.specs.Prelude.{◌≡◌, ◌≤◌, ◌<◌, ◌^◌, length, IfOk, IfSome};
ghost use Rattle.layout.specs.Rows.{whole};
ghost use Rattle.record_layout.specs.Body.{IsBody};
ghost use Rattle.record_layout.specs.PacketRows.{packet_verdict};
ghost use Rattle.record_codecs.specs.FrontRecords.{BeginWithRecords};
ghost use Rattle.record_codecs.specs.Verdicts.{scan_verdict, read_verdict};

use crate::place::PacketPlace;
use crate::record::front_record;
use avl_values::{Codec, Fault};
use record_layout::PacketHead;

/// What is known of a data body from its first bytes.
pub type Scan = field_machine::Scan<PacketHead>;

/// Judges the first bytes of a body of `total` bytes, field by field. Each byte is read once.
pub fn scan(have: &[u8], total: u32) -> Scan
    requires { length have.now ≤ total }
    ensures { scan_verdict total result ≡ packet_verdict total have.now }
{
    field_machine::scan(have, total, PacketPlace::Codec)
}

// What follows N records at the front of these bytes; None where one of them isn't there whole.
fn behind_records(codec: Codec, count: u8, bytes: &[u8]) -> Option<&[u8]>
    ensures { IfSome result (λ behind. BeginWithRecords codec count behind.now bytes.now) }
{
    let mut rest = bytes;
    for _ in 0..count {
        let length = front_record(codec, rest)?;
        let (_, behind) = rest.split_at(length);
        rest = behind;
    }
    Some(rest)
}

// What a whole body says first; None of a body that isn't whole.
fn whole_packet(body: &[u8]) -> Option<PacketHead>
    ensures { IfSome result (λ head. packet_verdict (length body.now) body.now ≡ whole head (length body.now)) }
{
    if body.len() < 4 {
        return None;
    }
    let codec = Codec::from_id(body[0])?;
    let count = body[1];
    let (_, records) = body.split_at(2);
    let behind = behind_records(codec, count, records)?;
    if count > 0 && behind.len() == 1 && behind[0] == count {
        Some(PacketHead { codec, count })
    } else {
        None
    }
}

/// Judges a whole body: its codec and number of records, or the first fault. A body of whole records is read record by record, and
/// only another one field by field.
pub fn read_packet(body: &[u8]) -> Result<PacketHead, Fault>
    requires { length body.now ≤ 2 ^ 31 }
    ensures verdict { read_verdict (length body.now) result ≡ packet_verdict (length body.now) body.now }
    ensures accepted { IfOk result (λ head. IsBody head body.now) }
{
    match whole_packet(body) {
        Some(head) => Ok(head),
        None => read_fields(body),
    }
}

// Judges a whole body field by field.
fn read_fields(body: &[u8]) -> Result<PacketHead, Fault>
    requires { length body.now ≤ 2 ^ 31 }
    ensures { read_verdict (length body.now) result ≡ packet_verdict (length body.now) body.now }
{
    match scan(body, body.len() as u32) {
        Scan::Whole(head) => Ok(head),
        Scan::Broken(fault) => Err(fault),
        Scan::More => unreachable!(),
    }
}
