ghost use Rattle.std.specs.Prelude.{◌<◌, length};

use crate::bodies::long_body;
use record_codecs::{Scan, read_packet, scan};
use std::alloc::Global;

/// Whether the body is whole, judged part by part, or field by field as one that isn't whole is.
fn is_whole(bytes: &[u8], by_field: bool) -> bool
    requires { length bytes.now < 100000 }
{
    if by_field {
        matches!(scan(bytes, bytes.len() as u32), Scan::Whole(_))
    } else {
        read_packet(bytes).is_ok()
    }
}

/// Judges the body N times, each time with another time in its first record, and counts how often it is whole.
fn judge(bytes: &mut [u8], rounds: u64, by_field: bool) -> u64 {
    let mut whole: u64 = 0;
    for round in 0..rounds {
        if bytes.len() > 9 && bytes.len() < 100_000 {
            bytes[9] = (round % 256) as u8;
            if is_whole(bytes, by_field) {
                whole = whole.saturating_add(1);
            }
        }
    }
    whole
}

/// Judges a body of 255 records with N elements, at most 112; its bytes, and how often it was whole.
pub fn judge_packets(
    alloc: Global,
    elements: u64,
    rounds: u64,
    by_field: bool,
) -> Option<(u64, u64)> {
    let mut bytes = long_body(alloc, elements.min(112) as u8).ok()?;
    let whole = judge(&mut bytes, rounds, by_field);
    Some((bytes.len() as u64, whole))
}
