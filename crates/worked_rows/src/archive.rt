ghost use Rattle.std.specs.Prelude.{◌≡◌, IfSome};
ghost use Rattle.medium_model.specs.CallsLeft.{unlimited};

use archive_journal::ArchiveFault;
use avl_values::Imei;
use hex::decode;
use medium::{Bench, Medium, MemoryBench, MemoryMedium, Tear};
use record_codecs::read_packet;
use shelf::{AdmitFault, Receipt, Shelf};
use std::alloc::Global;
use std::test::Fail;

const DEVICE: u64 = 356_307_042_441_013;

const OTHER: u64 = 352_093_081_452_251;

// A Codec 8 body of records without elements, whose times end in these bytes.
fn body(alloc: Global, times: &[u8]) -> Option<Vec<u8>> {
    let mut bytes = Vec::new(alloc);
    if times.len() > 255 {
        return None;
    }
    bytes.push(0x08).ok()?;
    bytes.push(times.len() as u8).ok()?;
    for time in times {
        bytes
            .extend_from_slice(&[0, 0, 0x01, 0x6b, 0x40, 0xd8, 0xea])
            .ok()?;
        bytes.push(*time).ok()?;
        bytes.extend_from_slice(&[0; 22]).ok()?;
    }
    bytes.push(times.len() as u8).ok()?;
    Some(bytes)
}

// Admits a body; None where it is no data body.
fn admit_bytes<M: Medium>(
    shelf: &mut Shelf<M>,
    imei: Imei,
    bytes: &[u8],
) -> Option<Result<Receipt, AdmitFault>> {
    if bytes.len() > 10_000 {
        return None;
    }
    match read_packet(bytes) {
        Ok(_) => Some(shelf.admit(imei, bytes)),
        Err(_) => None,
    }
}

// The places of a packet of these records, and what refused it.
fn admit<M: Medium>(
    alloc: Global,
    shelf: &mut Shelf<M>,
    device: u64,
    times: &[u8],
) -> Option<Result<Receipt, AdmitFault>> {
    let imei = Imei::from_number(device)?;
    let bytes = body(alloc, times)?;
    admit_bytes(shelf, imei, bytes.as_slice())
}

// The count and the first two places of a receipt.
fn places(answer: Option<Result<Receipt, AdmitFault>>) -> Option<(u8, u64, u64)> {
    let Some(Ok(receipt)) = answer else {
        return None;
    };
    let places = receipt.places.as_slice();
    match places {
        [first] => Some((receipt.count, *first, 99)),
        [first, second] => Some((receipt.count, *first, *second)),
        _ => None,
    }
}

// A shelf over a medium of these bytes that fails at these calls.
fn opened(
    alloc: Global,
    bytes: &[u8],
    failing: &[u64],
) -> Option<Result<Shelf<MemoryMedium>, (ArchiveFault, MemoryMedium)>> {
    let Ok(medium) = MemoryMedium::new(alloc, bytes, failing) else {
        return None;
    };
    Some(Shelf::open(alloc, medium))
}

// What refuses a file.
fn refusal(alloc: Global, bytes: &[u8]) -> Option<ArchiveFault> {
    match opened(alloc, bytes, &[])? {
        Ok(_) => None,
        Err((fault, _)) => Some(fault),
    }
}

#[test]
fn what_is_no_archive(rt: HostRuntime) -> Result<(), Fail> {
    assert_eq!(rt;
        refusal(rt.alloc(), b"0123456789"),
        Some(ArchiveFault::NotArchive)
    );
    assert_eq!(rt; refusal(rt.alloc(), b"012345678"), None);
    assert_eq!(rt; refusal(rt.alloc(), b"FMBARCH1"), None);
    Ok(())
}

// A shelf over an empty medium that fails at this call.
fn over_nothing(alloc: Global, failing: u64) -> Option<Shelf<MemoryMedium>> {
    match opened(alloc, b"", &[failing])? {
        Ok(shelf) => Some(shelf),
        Err(_) => None,
    }
}

// The places of a packet of one record.
fn admit_one(alloc: Global, shelf: &mut Shelf<MemoryMedium>) -> Option<(u8, u64, u64)> {
    places(admit(alloc, shelf, DEVICE, &[0x30]))
}

// One record on an empty medium: its count and places, and the file.
fn first_file(alloc: Global) -> Option<((u8, u64, u64), MemoryMedium)> {
    let mut shelf = over_nothing(alloc, 8)?;
    let first = admit_one(alloc, &mut shelf)?;
    Some((first, shelf.into_medium()))
}

/// The file of one record, of Codec 8 and with no elements.
const FILE: &str =
    "464d424152434831a5000000280001440f32b2173508010000016b40d8ea300000000000000000000000000000000000000000000000";

// Whether bytes are those of a text in hex.
fn is_hex(alloc: Global, bytes: &[u8], text: &str) -> bool {
    match decode(alloc, text.as_bytes()) {
        Ok(wanted) => bytes == wanted.as_slice(),
        Err(_) => false,
    }
}

// What a file is after it was opened as an archive.
fn file_after(alloc: Global, bytes: &[u8]) -> Option<MemoryMedium> {
    match opened(alloc, bytes, &[])? {
        Ok(shelf) => Some(shelf.into_medium()),
        Err(_) => None,
    }
}

/// An archive without entries, whole: its mark, and a closed gate.
const EMPTY: &str = "464d42415243483100";

// A file of at most nine bytes that is no archive becomes an empty one, and an open gate after the mark is closed.
#[test]
fn the_file_of_no_records(rt: HostRuntime) -> Result<(), Fail> {
    let alloc = rt.alloc();
    let files: [&[u8]; 5] = [b"", b"F", b"FMBARCH1", b"012345678", b"FMBARCH1\xA5"];
    for file in files {
        let medium = file_after(alloc, file).ok_or("an archive")?;
        assert!(rt; is_hex(alloc, medium.content(), EMPTY));
    }
    Ok(())
}

#[test]
fn the_file_of_one_record(rt: HostRuntime) -> Result<(), Fail> {
    let alloc = rt.alloc();
    let (first, medium) = first_file(alloc).ok_or("a file")?;
    assert!(rt; first == (1, 0, 99));
    assert!(rt; is_hex(alloc, medium.content(), FILE));
    Ok(())
}

// The places of the last of several packets, and how many records are listed.
fn admit_all(
    alloc: Global,
    shelf: &mut Shelf<MemoryMedium>,
    packets: &[(u64, &[u8])],
) -> Option<((u8, u64, u64), usize)> {
    let mut last = (0, 99, 99);
    for (device, times) in packets {
        last = places(admit(alloc, shelf, *device, *times))?;
    }
    Some((last, shelf.list().len()))
}

// The same over a medium that was empty.
fn listed(alloc: Global, packets: &[(u64, &[u8])]) -> Option<((u8, u64, u64), usize)> {
    let mut shelf = over_nothing(alloc, 12)?;
    admit_all(alloc, &mut shelf, packets)
}

// A packet that has a record twice, and one of two records.
#[test]
fn each_record_of_a_packet_once(rt: HostRuntime) -> Result<(), Fail> {
    let alloc = rt.alloc();
    let twice = listed(alloc, &[(DEVICE, &[0x30, 0x30])]);
    assert!(rt; twice == Some(((2, 0, 0), 1)));
    let two = listed(alloc, &[(DEVICE, &[0x30, 0x31])]);
    assert!(rt; two == Some(((2, 0, 1), 2)));
    Ok(())
}

// Two records, once more and in the other order; the same time of two devices.
#[test]
fn each_record_of_a_device_once(rt: HostRuntime) -> Result<(), Fail> {
    let alloc = rt.alloc();
    let again: [(u64, &[u8]); 3] = [
        (DEVICE, &[0x30, 0x31]),
        (DEVICE, &[0x30, 0x31]),
        (DEVICE, &[0x31, 0x30]),
    ];
    assert!(rt; listed(alloc, &again) == Some(((2, 1, 0), 2)));
    let both: [(u64, &[u8]); 2] = [(DEVICE, &[0x30]), (OTHER, &[0x30])];
    assert!(rt; listed(alloc, &both) == Some(((1, 1, 99), 2)));
    Ok(())
}

/// The body of Teltonika's example of Codec 16, with two records.
const CODEC_16: &str =
    "10020000016bdbc7833000000000000000000000000000000000000b05040200010000030002000b00270042563a00000000016bdbc7871800000000000000000000000000000000000b05040200010000030002000b00260042563a000002";

// The places of a body that is admitted twice, as the second time answered.
fn admit_twice(
    shelf: &mut Shelf<MemoryMedium>,
    imei: Imei,
    bytes: &[u8],
) -> Option<(u8, u64, u64)> {
    places(admit_bytes(shelf, imei, bytes))?;
    places(admit_bytes(shelf, imei, bytes))
}

// The places of a device that has two.
fn two_places(shelf: &Shelf<MemoryMedium>, imei: Imei) -> Option<(u64, u64)> {
    let Ok(found) = shelf.device(imei) else {
        return None;
    };
    match found.as_slice() {
        [first, second] => Some((*first, *second)),
        _ => None,
    }
}

// The example admitted twice: what the second time answered, how many records are listed, and the device's places.
fn admit_example(
    alloc: Global,
    shelf: &mut Shelf<MemoryMedium>,
) -> Option<((u8, u64, u64), usize, (u64, u64))> {
    let imei = Imei::from_number(DEVICE)?;
    let Ok(bytes) = decode(alloc, CODEC_16.as_bytes()) else {
        return None;
    };
    let again = admit_twice(shelf, imei, &bytes)?;
    let found = two_places(shelf, imei)?;
    Some((again, shelf.list().len(), found))
}

// The same over a medium whose first call after the first time fails.
fn example_twice(alloc: Global) -> Option<((u8, u64, u64), usize, (u64, u64))> {
    let mut shelf = over_nothing(alloc, 8)?;
    admit_example(alloc, &mut shelf)
}

#[test]
fn an_example_again_makes_no_call_of_the_medium(rt: HostRuntime) -> Result<(), Fail> {
    assert!(rt; example_twice(rt.alloc()) == Some(((2, 0, 1), 2, (0, 1))));
    Ok(())
}

// How many devices a shelf has once three records of two devices were admitted, and the places of one of them.
fn admit_two_devices(alloc: Global, shelf: &mut Shelf<MemoryMedium>) -> Option<(u64, (u64, u64))> {
    let imei = Imei::from_number(DEVICE)?;
    let packets: [(u64, &[u8]); 2] = [(DEVICE, &[0x30, 0x31]), (OTHER, &[0x30])];
    admit_all(alloc, shelf, &packets)?;
    let found = two_places(shelf, imei)?;
    Some((shelf.devices(), found))
}

// The same over an empty medium.
fn devices(alloc: Global) -> Option<(u64, (u64, u64))> {
    let mut shelf = over_nothing(alloc, 12)?;
    admit_two_devices(alloc, &mut shelf)
}

#[test]
fn the_places_of_a_device(rt: HostRuntime) -> Result<(), Fail> {
    assert!(rt; devices(rt.alloc()) == Some((2, (0, 1))));
    Ok(())
}

// A shelf over an empty bench.
fn on_a_bench(alloc: Global) -> Option<Shelf<MemoryBench>>
    ensures { IfSome result (λ s. s.medium.left ≡ unlimited) }
{
    let Ok(bench) = MemoryBench::new(alloc) else {
        return None;
    };
    match Shelf::open(alloc, bench) {
        Ok(shelf) => Some(shelf),
        Err(_) => None,
    }
}

// A shelf whose power was lost inside the first admit after N calls, or after it.
fn torn(alloc: Global, calls: u64, tear: Tear) -> Option<Shelf<MemoryBench>> {
    let mut shelf = on_a_bench(alloc)?;
    shelf.arm(calls, tear);
    let _answer = admit(alloc, &mut shelf, DEVICE, &[0x30])?;
    Some(shelf)
}

// The bench of a shelf once its power came back.
fn restarted(shelf: Shelf<MemoryBench>) -> MemoryBench {
    let mut bench = shelf.into_medium();
    bench.restart();
    bench
}

// How many records a shelf over this bench lists, or 97 where it can't be opened.
fn listed_on(alloc: Global, bench: MemoryBench) -> usize {
    match Shelf::open(alloc, bench) {
        Ok(shelf) => shelf.list().len(),
        Err(_) => 97,
    }
}

// A power loss inside the first admit after N calls: how many records are listed after the restart.
fn cut(alloc: Global, calls: u64, tear: Tear) -> usize {
    match torn(alloc, calls, tear) {
        Some(shelf) => listed_on(alloc, restarted(shelf)),
        None => 99,
    }
}

// Whether N records are listed with this tear, by how many calls passed before the power was lost.
fn cuts_list(alloc: Global, tear: Tear, listed: &[usize]) -> bool {
    for (calls, wanted) in listed.iter().enumerate() {
        if cut(alloc, calls as u64, tear) != *wanted {
            return false;
        }
    }
    true
}

#[test]
fn a_power_loss_inside_an_admit(rt: HostRuntime) -> Result<(), Fail> {
    let alloc = rt.alloc();
    assert!(rt; cuts_list(alloc, Tear::Keep, &[0, 0, 0, 0, 1]));
    assert!(rt; cuts_list(alloc, Tear::Zero, &[0, 0, 0, 0, 1]));
    assert!(rt; cuts_list(alloc, Tear::Half, &[0, 0, 0, 0, 1]));
    assert!(rt; cuts_list(alloc, Tear::New, &[0, 0, 1, 1, 1]));
    assert!(rt; cuts_list(alloc, Tear::AllOpen, &[0, 0, 1, 1, 1]));
    Ok(())
}

// Admits a record twice: where that failed, and what the second call answered.
fn failing_admit(
    alloc: Global,
    shelf: &mut Shelf<MemoryMedium>,
) -> (&'static str, Option<AdmitFault>) {
    match admit(alloc, shelf, DEVICE, &[0x30]) {
        Some(Ok(_)) => ("stored", None),
        Some(Err(AdmitFault::MediumFault { faults: 1 })) => ("admit", second(alloc, shelf)),
        _ => ("other", None),
    }
}

// What a shelf that is down answers.
fn second(alloc: Global, shelf: &mut Shelf<MemoryMedium>) -> Option<AdmitFault> {
    if !shelf.list().is_empty() {
        return None;
    }
    match admit(alloc, shelf, DEVICE, &[0x30]) {
        Some(Err(fault)) => Some(fault),
        _ => None,
    }
}

// Where a shelf was refused.
fn refused(fault: ArchiveFault, medium: &MemoryMedium) -> &'static str {
    if fault == ArchiveFault::MediumFault && medium.faults() == 1 {
        "open"
    } else {
        "refused"
    }
}

// Opens a shelf of which one call fails, and admits a record twice: where that failed, and what the second call answered.
fn failing_call(alloc: Global, call: u64) -> (&'static str, Option<AdmitFault>) {
    match opened(alloc, b"", &[call, call.saturating_add(1)]) {
        None => ("memory", None),
        Some(Err((fault, medium))) => (refused(fault, &medium), None),
        Some(Ok(mut shelf)) => failing_admit(alloc, &mut shelf),
    }
}

#[test]
fn each_call_of_a_shelf_fails_in_turn(rt: HostRuntime) -> Result<(), Fail> {
    let alloc = rt.alloc();
    let down = Some(AdmitFault::Down { faults: 1 });
    for call in 0..4 {
        assert!(rt; failing_call(alloc, call) == ("open", None));
    }
    for call in 4..8 {
        assert!(rt; failing_call(alloc, call) == ("admit", down));
    }
    assert!(rt; failing_call(alloc, 8) == ("stored", None));
    Ok(())
}

// How many records a shelf lists that is opened again over its medium, and whether the record is stored then.
fn opened_again(alloc: Global, medium: MemoryMedium) -> Option<(usize, bool)> {
    let Ok(mut shelf) = Shelf::open(alloc, medium) else {
        return None;
    };
    let listed = shelf.list().len();
    let answer = admit(alloc, &mut shelf, DEVICE, &[0x30])?;
    Some((listed, answer.is_ok()))
}

// The same where a call of opening it, or of the first admit, has failed.
fn after_failing(alloc: Global, call: u64) -> Option<(usize, bool)> {
    let mut shelf = match opened(alloc, b"", &[call])? {
        Err((_, medium)) => return opened_again(alloc, medium),
        Ok(shelf) => shelf,
    };
    match admit(alloc, &mut shelf, DEVICE, &[0x30]) {
        Some(Err(_)) => opened_again(alloc, shelf.into_medium()),
        _ => None,
    }
}

#[test]
fn a_shelf_is_opened_again_after_each_failing_call(rt: HostRuntime) -> Result<(), Fail> {
    let alloc = rt.alloc();
    for (call, listed) in [0, 0, 0, 0, 0, 0, 0, 1].iter().enumerate() {
        assert!(rt;
            after_failing(alloc, call as u64) == Some((*listed, true)),
            "{call}"
        );
    }
    assert!(rt; after_failing(alloc, 8).is_none());
    Ok(())
}
