//! Bodies of entries, read and made.
ghost use Rattle.std.specs.Prelude.{◌≡◌, ◌<◌, ◌≤◌, ◌+◌, ◌^◌, true, false, map, length, IfOk, IfSome, IfNone};
ghost use Rattle.layout.specs.Rows.{whole};
ghost use Rattle.record_layout.specs.PacketRows.{packet_verdict};
ghost use Rattle.record_layout.specs.RecordsOf.{records_of};
ghost use Rattle.archive_journal.specs.Body.{length_in, imei_in, packet_in, is_body, entry_in, joined, body_bytes};
ghost use Rattle.archive_journal.specs.Entry.{IsEntry};

use crate::entry::Entry;
use avl_values::{Codec, Imei, NoMemory, WideRec};
use record_codecs::{PacketHead, Scan, records, scan};
use std::alloc::Global;

/// The number in the first four bytes of a body.
#[tactic(auto, unfolding(crate::specs::Body::length_in))]
pub fn read_length(body: &[u8]) -> u32
    requires { 4 ≤ length body.now }
    ensures { result ≡ length_in body.now }
{
    let mut length = [0; 4];
    length.copy_from_slice(&body[..4]);
    u32::from_be_bytes(length)
}

// The IMEI after it.
#[tactic(auto, unfolding(crate::specs::Body::imei_in))]
fn read_imei(body: &[u8]) -> Option<Imei>
    requires { 12 ≤ length body.now }
    ensures some { IfSome result (λ imei. imei ≡ imei_in body.now) }
    ensures below { IfSome result (λ imei. imei < 10 ^ 15) }
    ensures none { IfNone result (10 ^ 15 ≤ imei_in body.now) }
{
    let mut number = [0; 8];
    number.copy_from_slice(&body[4..12]);
    Imei::from_number(u64::from_be_bytes(number))
}

// The data body after that.
fn packet_of(alloc: Global, body: &[u8]) -> Result<Vec<u8>, NoMemory>
    requires { 14 ≤ length body.now }
    ensures { IfOk result (λ packet. packet.items ≡ packet_in body.now) }
{
    let mut packet = Vec::with_capacity(alloc, body.len() - 11)?;
    packet.extend_from_slice(&body[12..])?;
    packet.push(body[13])?;
    Ok(packet)
}

// The records of a whole data body.
fn read_records(alloc: Global, packet: &[u8], head: PacketHead) -> Result<Vec<WideRec>, NoMemory>
    requires { packet_verdict (length packet.now) packet.now ≡ whole head (length packet.now) }
    ensures value { IfOk result (λ v. v.items ≡ records_of packet.now) }
    ensures entry { IfOk result (λ v. IsEntry head.codec v.items) }
{
    let mut read = Vec::with_capacity(alloc, head.count as usize)?;
    for record in records(packet) {
        read.push(WideRec::new(alloc, head.codec, record)?)?;
    }
    Ok(read)
}

/// What a body says, None where it isn't well formed.
pub fn read_body(alloc: Global, body: &[u8]) -> Result<Option<Entry>, NoMemory>
    requires { length body.now < 2 ^ 32 + 4 }
    ensures none { IfOk result (λ found. IfNone found (is_body body.now ≡ false)) }
    ensures well_formed { IfOk result (λ found. IfSome found (λ entry. is_body body.now ≡ true)) }
    ensures some { IfOk result (λ found. IfSome found (λ entry. entry ≡ entry_in body.now)) }
{
    if body.len() < 14 {
        return Ok(None);
    }
    if body.len() as u64 != 4 + read_length(body) as u64 {
        return Ok(None);
    }
    let Some(imei) = read_imei(body) else {
        return Ok(None);
    };
    let packet = packet_of(alloc, body)?;
    match scan(&packet, packet.len() as u32) {
        Scan::Whole(head) => {
            let records = read_records(alloc, &packet, head)?;
            Ok(Some(Entry::new(imei, head.codec, records)))
        }
        Scan::More => Ok(None),
        Scan::Broken(_) => Ok(None),
    }
}

// All bytes of these records.
fn joined_len(records: &[WideRec]) -> usize
    requires { length (joined records.now) ≤ 2 ^ 31 }
    ensures { result ≡ length (joined records.now) }
{
    let mut len = 0;
    for record in records {
        len += record.bytes().len();
    }
    len
}

/// The one body of these records of a device, all in one codec.
pub fn write_body(
    alloc: Global,
    imei: Imei,
    codec: Codec,
    records: &[WideRec],
) -> Result<Vec<u8>, NoMemory>
    requires entry { IsEntry codec records.now }
    requires few { length (joined records.now) ≤ 2 ^ 31 }
    ensures bytes { IfOk result (λ body. body.items ≡ body_bytes imei codec records.now) }
    ensures well_formed { IfOk result (λ body. is_body body.items ≡ true) }
    ensures entry { IfOk result (λ body. entry_in body.items ≡ record { imei = imei; records = records.now }) }
    ensures size { IfOk result (λ body. length body.items ≡ 14 + length (joined records.now)) }
{
    let len = joined_len(records);
    let mut body = Vec::with_capacity(alloc, len + 14)?;
    body.extend_from_slice(&(len as u32 + 10).to_be_bytes())?;
    body.extend_from_slice(&imei.number().to_be_bytes())?;
    body.push(codec.id())?;
    body.push(records.len() as u8)?;
    for record in records {
        body.extend_from_slice(record.bytes())?;
    }
    Ok(body)
}
