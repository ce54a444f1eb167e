//! Teltonika's examples, what is no stream, and an archive that fails.
use crate::serving::{DEVICE, LOGIN, joined, over_nothing, serve, serve_alone};
use avl_values::{Fault, FaultKind, Imei};
use session_core::{ImeiList, Known, Served, SessionEnd};
use std::alloc::Global;
use std::test::Fail;

/// Teltonika's example of Codec 8, a frame of one record.
const CODEC_8: &str =
    "000000000000003608010000016b40d8ea30010000000000000000000000000000000105021503010101425e0f01f10000601a014e0000000000000000010000c7cf";

/// Its first 20 bytes.
const CODEC_8_FRONT: &str = "000000000000003608010000016b40d8ea300100";

/// The same with another codec id.
const CODEC_7: &str =
    "000000000000003607010000016b40d8ea30010000000000000000000000000000000105021503010101425e0f01f10000601a014e0000000000000000010000c7cf";

/// The same with another checksum.
const CODEC_8_OTHER_CRC: &str =
    "000000000000003608010000016b40d8ea30010000000000000000000000000000000105021503010101425e0f01f10000601a014e0000000000000000010000c7ce";

/// Teltonika's example of Codec 16, a frame of two records.
const CODEC_16: &str =
    "000000000000005f10020000016bdbc7833000000000000000000000000000000000000b05040200010000030002000b00270042563a00000000016bdbc7871800000000000000000000000000000000000b05040200010000030002000b00260042563a00000200005fb3";

/// Teltonika's example of Codec 12, the command `getinfo`.
const GETINFO: &str = "000000000000000f0c010500000007676574696e666f0100004312";

/// `GET / HTTP/1.1`.
const HTTP: &str = "474554202f20485454502f312e31";

// What is served of a stream in pieces of one byte and of 4,096, where just this is written for it and both come out the same.
fn serve_both(alloc: Global, known: &Known, stream: &[&str], written: &str) -> Option<Served> {
    let stream = joined(alloc, stream)?;
    let written = joined(alloc, &[written])?;
    let bytes = serve_alone(alloc, known, &stream, 1, &written)?;
    let pieces = serve_alone(alloc, known, &stream, 4_096, &written)?;
    if bytes == pieces { Some(bytes) } else { None }
}

// What is to be served: the device's IMEI is in it where anything is written.
fn wanted(written: &str, counts: (u64, u64), end: SessionEnd) -> Served {
    let imei = if written.is_empty() {
        None
    } else {
        Imei::from_number(DEVICE)
    };
    Served {
        imei,
        frames: counts.0,
        records: counts.1,
        end,
    }
}

// Whether a stream comes out so where every device is known.
fn holds_for_all(
    alloc: Global,
    stream: &[&str],
    written: &str,
    counts: (u64, u64),
    end: SessionEnd,
) -> bool {
    match serve_both(alloc, &Known::All, stream, written) {
        Some(served) => served == wanted(written, counts, end),
        None => false,
    }
}

// Whether a stream with no data frame breaks so.
fn breaks(alloc: Global, stream: &[&str], written: &str, kind: FaultKind, place: u32) -> bool {
    let found = Fault { kind, place };
    holds_for_all(alloc, stream, written, (0, 0), SessionEnd::Broken(found))
}

// Whether a stream of one frame is served to its end so.
fn ends(alloc: Global, frame: &str, written: &str, counts: (u64, u64)) -> bool {
    holds_for_all(alloc, &[LOGIN, frame], written, counts, SessionEnd::Ended)
}

#[test]
fn the_examples_are_counted(rt: HostRuntime) -> Result<(), Fail> {
    let alloc = rt.alloc();
    assert!(rt; ends(alloc, CODEC_8, "0100000001", (1, 1)));
    assert!(rt; ends(alloc, CODEC_16, "0100000002", (1, 2)));
    Ok(())
}

#[test]
fn the_link_ends_inside_an_item(rt: HostRuntime) -> Result<(), Fail> {
    let alloc = rt.alloc();
    let inside = |have| SessionEnd::EndedInside { have };
    assert!(rt; holds_for_all(alloc, &["000f"], "", (0, 0), inside(2)));
    assert!(rt; holds_for_all(alloc, &[LOGIN, "ff"], "01", (0, 0), inside(1)));
    assert!(rt; holds_for_all(alloc, &[LOGIN, CODEC_8_FRONT], "01", (0, 0), inside(20)));
    Ok(())
}

#[test]
fn what_is_no_stream(rt: HostRuntime) -> Result<(), Fail> {
    let alloc = rt.alloc();
    assert!(rt; breaks(alloc, &[HTTP], "", FaultKind::LoginLength, 0));
    assert!(rt;
        breaks(
            alloc,
            &[LOGIN, "00000000ffffffff"],
            "01",
            FaultKind::Length,
            4
        )
    );
    assert!(rt;
        breaks(
            alloc,
            &[LOGIN, "0000000000010000"],
            "01",
            FaultKind::Length,
            4
        )
    );
    assert!(rt; breaks(alloc, &[LOGIN, LOGIN], "01", FaultKind::Preamble, 0));
    assert!(rt; breaks(alloc, &[LOGIN, CODEC_7], "01", FaultKind::UnknownCodec, 8));
    assert!(rt; breaks(alloc, &[LOGIN, GETINFO], "01", FaultKind::CommandType, 10));
    Ok(())
}

#[test]
fn a_broken_checksum_after_a_good_frame(rt: HostRuntime) -> Result<(), Fail> {
    let end = SessionEnd::Broken(Fault {
        kind: FaultKind::CrcMismatch,
        place: 64,
    });
    let stream = [LOGIN, CODEC_8, CODEC_8_OTHER_CRC];
    assert!(rt; holds_for_all(rt.alloc(), &stream, "0100000001", (1, 1), end));
    Ok(())
}

// Whether a list with this IMEI alone knows this device.
fn lists(alloc: Global, listed: u64, asked: u64) -> Option<bool> {
    let mut list = ImeiList::new(alloc);
    list.push(Imei::from_number(listed)?).ok()?;
    Some(Known::Listed(list).has(Imei::from_number(asked)?))
}

#[test]
fn the_devices_in_a_list_are_known(rt: HostRuntime) -> Result<(), Fail> {
    assert!(rt; lists(rt.alloc(), DEVICE, DEVICE) == Some(true));
    assert!(rt; lists(rt.alloc(), DEVICE, 1) == Some(false));
    Ok(())
}

// How a session of a device ends where none is known.
fn stranger(alloc: Global) -> Option<Served> {
    let nobody = Known::Listed(ImeiList::new(alloc));
    serve_both(alloc, &nobody, &[LOGIN, CODEC_8], "00")
}

#[test]
fn a_stranger_is_sent_away(rt: HostRuntime) -> Result<(), Fail> {
    let imei = Imei::from_number(DEVICE).ok_or("an IMEI")?;
    let served = stranger(rt.alloc()).ok_or("just 00")?;
    assert!(rt; served == wanted("00", (0, 0), SessionEnd::Unknown { imei }));
    Ok(())
}

// How two sessions of one stream over one shelf ended, whose medium fails at this call, and how many records are listed then.
fn twice(
    alloc: Global,
    failing: u64,
    frame: &str,
    written: &str,
) -> Option<(SessionEnd, SessionEnd, usize)> {
    let stream = joined(alloc, &[LOGIN, frame])?;
    let text = joined(alloc, &[written])?;
    let mut shelf = over_nothing(alloc, failing)?;
    let first = serve(alloc, &mut shelf, &Known::All, &stream, 4_096, &text)?;
    let again = serve(alloc, &mut shelf, &Known::All, &stream, 4_096, &text)?;
    Some((first.end, again.end, shelf.list().len()))
}

#[test]
fn a_stream_again_makes_no_call_of_the_medium(rt: HostRuntime) -> Result<(), Fail> {
    let both = twice(rt.alloc(), 8, CODEC_16, "0100000002");
    assert!(rt; both == Some((SessionEnd::Ended, SessionEnd::Ended, 2)));
    Ok(())
}

#[test]
fn an_archive_that_fails_is_down(rt: HostRuntime) -> Result<(), Fail> {
    let failed = SessionEnd::MediumFault { faults: 1 };
    let down = SessionEnd::Down { faults: 1 };
    assert!(rt; twice(rt.alloc(), 7, CODEC_8, "01") == Some((failed, down, 0)));
    Ok(())
}
