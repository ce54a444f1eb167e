use crate::bodies::{long_body, push_frame};
use avl_values::NoMemory;
use frame_channel::{Up, UpItem};
use std::alloc::Global;

/// N frames of 255 records with 112 elements, one after the other.
fn stream(alloc: Global, frames: u64) -> Result<Vec<u8>, NoMemory> {
    let body = long_body(alloc, 112)?;
    let mut bytes = Vec::new(alloc);
    for _ in 0..frames {
        push_frame(&mut bytes, &body)?;
    }
    Ok(bytes)
}

/// Pushes a piece until it is taken; how many frames ended in it.
fn push(up: &mut Up, piece: &[u8]) -> u64 {
    let mut packets: u64 = 0;
    let mut rest = piece;
    while rest.len() > 0 {
        if up.failed() {
            return packets;
        }
        let (taken, item) = up.push(rest);
        rest = &rest[taken..];
        if let UpItem::Packet(_) = item {
            packets = packets.saturating_add(1);
        }
    }
    packets
}

/// Pushes bytes in pieces; how many frames were read.
fn read(alloc: Global, bytes: &[u8], piece: usize) -> Result<u64, NoMemory> {
    let mut up = Up::frames(alloc)?;
    let mut packets: u64 = 0;
    if piece > 0 {
        for part in bytes.chunks(piece) {
            packets = packets.saturating_add(push(&mut up, part));
        }
    }
    Ok(packets)
}

/// Reads N frames in pieces of N bytes; the stream's bytes, and how many frames were read.
pub fn read_stream(alloc: Global, frames: u64, piece: u64) -> Option<(u64, u64)> {
    let bytes = stream(alloc, frames).ok()?;
    let packets = read(alloc, &bytes, piece as usize).ok()?;
    Some((bytes.len() as u64, packets))
}
