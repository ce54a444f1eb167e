ghost use Rattle.desk_rows.specs.Seats.{StandsForSeats};

use avl_values::Imei;
use desk::{Desk, Seat};
use hex::decode;
use medium::MemoryMedium;
use record_codecs::read_packet;
use shelf::{Admit, AdmitFault, Receipt, Shelf};
use std::alloc::Global;
use std::sync::Wait;

pub const DEVICE: u64 = 356_307_042_441_013;

pub const OTHER: u64 = 352_093_081_452_251;

/// A shelf over an empty medium that fails at this call.
pub fn over_nothing(alloc: Global, failing: u64) -> Option<Shelf<MemoryMedium>> {
    let Ok(medium) = MemoryMedium::new(alloc, &[], &[failing]) else {
        return None;
    };
    match Shelf::open(alloc, medium) {
        Ok(shelf) => Some(shelf),
        Err(_) => None,
    }
}

/// Admits a body; None where it is no data body.
pub fn admit<A: Admit>(at: &mut A, imei: Imei, body: &[u8]) -> Option<Result<Receipt, AdmitFault>> {
    if body.len() > 10_000 {
        return None;
    }
    match read_packet(body) {
        Ok(_) => Some(at.admit(imei, body)),
        Err(_) => None,
    }
}

/// Admits a body at a seat; None where it is no data body.
pub fn admit_at<R: Wait>(
    rt: &R,
    desk: &Desk<MemoryMedium>,
    seat: &mut Seat<MemoryMedium>,
    imei: Imei,
    body: &[u8],
) -> Option<Result<Receipt, AdmitFault>>
    requires { StandsForSeats desk.now 1 seat.old }
    ensures { StandsForSeats desk.now 1 seat.new }
{
    if body.len() > 10_000 {
        return None;
    }
    match read_packet(body) {
        Ok(_) => Some(desk.admit(rt, seat, imei, body)),
        Err(_) => None,
    }
}

/// The body of Teltonika's example of Codec 16, with two records.
const CODEC_16: &str =
    "10020000016bdbc7833000000000000000000000000000000000000b05040200010000030002000b00270042563a00000000016bdbc7871800000000000000000000000000000000000b05040200010000030002000b00260042563a000002";

// The places of a packet of two records.
fn two_places(answer: Option<Result<Receipt, AdmitFault>>) -> Option<(u64, u64)> {
    let Some(Ok(receipt)) = answer else {
        return None;
    };
    match receipt.places.as_slice() {
        [first, second] => Some((*first, *second)),
        _ => None,
    }
}

/// Admits the example, and gives its places.
pub fn admit_example<A: Admit>(alloc: Global, at: &mut A) -> Option<(u64, u64)> {
    let imei = Imei::from_number(DEVICE)?;
    let Ok(body) = decode(alloc, CODEC_16.as_bytes()) else {
        return None;
    };
    two_places(admit(at, imei, &body))
}

/// The same at a seat.
pub fn admit_example_at<R: Wait>(
    rt: &R,
    alloc: Global,
    desk: &Desk<MemoryMedium>,
    seat: &mut Seat<MemoryMedium>,
) -> Option<(u64, u64)>
    requires { StandsForSeats desk.now 1 seat.old }
    ensures { StandsForSeats desk.now 1 seat.new }
{
    let imei = Imei::from_number(DEVICE)?;
    let Ok(body) = decode(alloc, CODEC_16.as_bytes()) else {
        return None;
    };
    two_places(admit_at(rt, desk, seat, imei, &body))
}
