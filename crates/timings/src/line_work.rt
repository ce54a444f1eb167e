use crate::bodies::driving_body;
use avl_values::{Codec, NoMemory};
use record_codecs::PacketHead;
use show_lines::push_packet_lines;
use std::alloc::Global;

const RECORDS: u8 = 200;

/// The lines of the packet, N times into one buffer, and how long they are.
fn write(alloc: Global, body: &[u8], rounds: u32) -> Result<usize, NoMemory> {
    let head = PacketHead {
        codec: Codec::C8,
        count: RECORDS,
    };
    let mut out = Vec::new(alloc);
    for line in 0..rounds {
        out.clear();
        push_packet_lines(&mut out, head, body, line)?;
    }
    Ok(out.len())
}

/// Writes the lines of a packet of 200 records with N elements, at most 255; the body's bytes, and those of its lines.
pub fn write_lines(alloc: Global, elements: u64, rounds: u64) -> Option<(u64, u64)> {
    let bytes = driving_body(alloc, RECORDS, elements.min(255) as u8).ok()?;
    let length = write(alloc, &bytes, rounds.min(1_000_000) as u32).ok()?;
    Some((bytes.len() as u64, length as u64))
}
