//! Bodies of packets of Codec 8, and their frames.
use avl_values::NoMemory;
use crc_field::crc;
use std::alloc::Global;

/// 255 records with N elements of one byte each, all else zero.
pub fn long_body(alloc: Global, elements: u8) -> Result<Vec<u8>, NoMemory> {
    let mut bytes = Vec::new(alloc);
    bytes.extend_from_slice(&[0x08, 255])?;
    for _ in 0..255 {
        bytes.extend_from_slice(&[0; 25])?;
        bytes.extend_from_slice(&[elements, elements])?;
        for id in 0..elements {
            bytes.extend_from_slice(&[id, 1])?;
        }
        bytes.extend_from_slice(&[0; 3])?;
    }
    bytes.push(255)?;
    Ok(bytes)
}

/// Records with N elements of two bytes each, at one place and time.
pub fn driving_body(alloc: Global, records: u8, elements: u8) -> Result<Vec<u8>, NoMemory> {
    let mut bytes = Vec::new(alloc);
    bytes.extend_from_slice(&[0x08, records])?;
    for _ in 0..records {
        bytes.extend_from_slice(&[0, 0, 1, 0x6b, 0x40, 0xd8, 0xea, 0x30, 1])?;
        bytes.extend_from_slice(&[0x0f, 0x0e, 0xb5, 0xc0, 0x20, 0x9a, 0x2f, 0x40, 0, 0x64])?;
        bytes.extend_from_slice(&[0, 0xb4, 9, 0, 0x32, 1])?;
        bytes.extend_from_slice(&[elements, 0, elements])?;
        for id in 0..elements {
            bytes.extend_from_slice(&[id, 0x5e, 0x0f])?;
        }
        bytes.extend_from_slice(&[0, 0])?;
    }
    bytes.push(records)?;
    Ok(bytes)
}

/// N records without elements, with the times from `first` on.
pub fn timed_body(alloc: Global, first: u64, records: u8) -> Result<Vec<u8>, NoMemory> {
    let mut bytes = Vec::with_capacity(alloc, 1300)?;
    bytes.extend_from_slice(&[0x08, records])?;
    for place in 0..records {
        let time = first.saturating_add(place as u64);
        bytes.extend_from_slice(&time.to_be_bytes())?;
        bytes.extend_from_slice(&[0; 22])?;
    }
    bytes.push(records)?;
    Ok(bytes)
}

/// Puts the frame of a body last.
pub fn push_frame(bytes: &mut Vec<u8>, body: &[u8]) -> Result<(), NoMemory> {
    let length = (body.len() % 65_536) as u16;
    bytes.extend_from_slice(&[0; 6])?;
    bytes.extend_from_slice(&length.to_be_bytes())?;
    bytes.extend_from_slice(body)?;
    bytes.extend_from_slice(&[0; 2])?;
    bytes.extend_from_slice(&crc(body).to_be_bytes())?;
    Ok(())
}
