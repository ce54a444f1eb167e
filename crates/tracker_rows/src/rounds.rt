//! Rounds over links in memory.
use crate::samples::{held, with_records};
use avl_values::{Codec, Fault, FaultKind, MediumFault};
use crc_field::crc;
use frame_channel::{Link, MemoryLink};
use medium::{MemoryBench, Tear};
use std::alloc::Global;
use std::test::Fail;
use tracker_session::{Got, PlainShell, RoundEnd, Tracker};

/// The command `getinfo` of Codec 12.
const GETINFO: &[u8] =
    b"\x00\x00\x00\x00\x00\x00\x00\x0f\x0c\x01\x05\x00\x00\x00\x07getinfo\x01\x00\x00\x43\x12";

/// The command `getver` of Codec 14 for the device 352093081452251.
const FOR_ANOTHER: &[u8] =
    b"\x00\x00\x00\x00\x00\x00\x00\x16\x0e\x01\x05\x00\x00\x00\x0e\x03\x52\x09\x30\x81\x45\x22\x51getver\x01\x00\x00\xd2\xc1";

/// The body that refuses it.
const REFUSAL: &[u8] = b"\x0e\x01\x11\x00\x00\x00\x08\x03\x56\x30\x70\x42\x44\x10\x13\x01";

/// The body of the command `getver` of Codec 12, and that of its answer.
const GETVER: &[u8] = b"\x0c\x01\x05\x00\x00\x00\x06getver\x01";

const VERSION: &[u8] = b"\x0c\x01\x06\x00\x00\x00\x05fmb 1\x01";

const THREE: [Codec; 3] = [Codec::C8, Codec::C8, Codec::C8];

/// How a round ended, how many bytes it wrote, and how many records are held then.
#[derive(Debug, PartialEq, Eq, Clone, Copy)]
struct Seen {
    ended: Result<RoundEnd, MediumFault>,
    written: usize,
    held: u16,
}

// A round over a link.
fn over(tracker: &mut Tracker<MemoryBench>, link: &mut MemoryLink) -> Option<Seen> {
    if tracker.is_down() {
        return None;
    }
    let ended = tracker.round(link, &mut PlainShell, 4);
    Some(Seen {
        ended,
        written: link.written().len(),
        held: held(tracker),
    })
}

// A round over a link that gives these bytes one by one, and fails at these calls.
fn round(
    alloc: Global,
    tracker: &mut Tracker<MemoryBench>,
    incoming: &[u8],
    failing: &[u64],
) -> Option<Seen> {
    let mut link = MemoryLink::new(alloc, incoming, 1, 4096, failing).ok()?;
    over(tracker, &mut link)
}

// The same with three records in the ring.
fn with_three(alloc: Global, incoming: &[u8], failing: &[u64]) -> Option<Seen> {
    let mut tracker = with_records(alloc, &THREE)?;
    round(alloc, &mut tracker, incoming, failing)
}

// The login has 17 bytes, and the frame of three records 105.
fn ending(ended: RoundEnd, written: usize, held: u16) -> Option<Seen> {
    Some(Seen {
        ended: Ok(ended),
        written,
        held,
    })
}

#[test]
fn a_round_ends_by_what_comes_down(rt: HostRuntime) -> Result<(), Fail> {
    let alloc = rt.alloc();
    let login = RoundEnd::WrongAnswer { got: Got::Login(2) };
    let count = RoundEnd::WrongAnswer { got: Got::Count(2) };
    let frame = RoundEnd::WrongAnswer {
        got: Got::Frame(Fault {
            kind: FaultKind::Length,
            place: 4,
        }),
    };
    assert!(rt;
        with_three(alloc, b"\x01\x00\x00\x00\x03", &[]) == ending(RoundEnd::Done(3), 122, 0)
    );
    assert!(rt; with_three(alloc, b"\x00", &[]) == ending(RoundEnd::Refused, 17, 3));
    assert!(rt; with_three(alloc, b"\x02", &[]) == ending(login, 17, 3));
    assert!(rt; with_three(alloc, b"\x01\x00\x00\x00\x02", &[]) == ending(count, 122, 3));
    assert!(rt;
        with_three(alloc, b"\x01\x00\x00\x00\x00\xff\xff\xff\xff", &[]) == ending(frame, 122, 3)
    );
    assert!(rt; with_three(alloc, b"\x01\x00\x00", &[]) == ending(RoundEnd::Broken, 122, 3));
    assert!(rt; with_three(alloc, b"\x01\x00\x00\x00\x03", &[0]) == ending(RoundEnd::Broken, 0, 3));
    Ok(())
}

// The login's answer `01`, and these bytes so often.
fn accepted_then(alloc: Global, bytes: &[u8], times: u8) -> Option<Vec<u8>> {
    let mut incoming = Vec::from_slice(alloc, &[1]).ok()?;
    for _ in 0..times {
        incoming.extend_from_slice(bytes).ok()?;
    }
    Some(incoming)
}

// Commands in a row: each answer `unknown command` has 35 bytes.
fn commands(alloc: Global, times: u8) -> Option<Seen> {
    let incoming = accepted_then(alloc, GETINFO, times)?;
    with_three(alloc, &incoming, &[])
}

#[test]
fn sixteen_commands_are_obeyed(rt: HostRuntime) -> Result<(), Fail> {
    let alloc = rt.alloc();
    assert!(rt; commands(alloc, 16) == ending(RoundEnd::Broken, 122 + 16 * 35, 3));
    assert!(rt; commands(alloc, 17) == ending(RoundEnd::TooManyCommands, 122 + 16 * 35, 3));
    Ok(())
}

// The frame of a body.
fn frame(alloc: Global, body: &[u8]) -> Option<Vec<u8>> {
    let mut frame = Vec::from_slice(alloc, &[0; 4]).ok()?;
    frame
        .extend_from_slice(&body.len().to_be_bytes()[4..])
        .ok()?;
    frame.extend_from_slice(body).ok()?;
    frame.extend_from_slice(&[0; 2]).ok()?;
    frame.extend_from_slice(&crc(body).to_be_bytes()).ok()?;
    Some(frame)
}

// Whether a command is answered by the frame of this body.
fn is_answered(alloc: Global, command: &[u8], body: &[u8]) -> Option<bool> {
    let mut tracker = with_records(alloc, &THREE)?;
    let incoming = accepted_then(alloc, command, 1)?;
    let mut link = MemoryLink::new(alloc, &incoming, 7, 4096, &[]).ok()?;
    over(&mut tracker, &mut link)?;
    let wanted = frame(alloc, body)?;
    Some(link.written().ends_with(&wanted))
}

#[test]
fn commands_are_answered(rt: HostRuntime) -> Result<(), Fail> {
    let alloc = rt.alloc();
    let getver = frame(alloc, GETVER).expect(&rt, "a frame");
    assert!(rt; is_answered(alloc, &getver, VERSION) == Some(true));
    assert!(rt; is_answered(alloc, FOR_ANOTHER, REFUSAL) == Some(true));
    Ok(())
}

// A round of two batches, with one call of the link failing; and another one after it.
fn link_fails(alloc: Global, call: u64) -> Option<(Seen, Seen)> {
    let mut tracker = with_records(alloc, &[Codec::C8, Codec::C8E])?;
    let counts = b"\x01\x00\x00\x00\x01\x00\x00\x00\x01";
    let first = round(alloc, &mut tracker, counts, &[call])?;
    let second = round(alloc, &mut tracker, counts, &[])?;
    Some((first, second))
}

// One by one: the login; `01` and a frame; four bytes of a count and the next frame; and four bytes of the last count.
#[test]
fn each_call_of_a_link_fails_in_turn(rt: HostRuntime) -> Result<(), Fail> {
    let alloc = rt.alloc();
    for call in 0..13u64 {
        let (first, second) = link_fails(alloc, call).expect(&rt, "two rounds");
        let counted = if call < 7 {
            0
        } else if call < 12 {
            1
        } else {
            2
        };
        let ended = if call < 12 {
            RoundEnd::Broken
        } else {
            RoundEnd::Done(2)
        };
        let rest = if call < 12 {
            RoundEnd::Done(2 - counted)
        } else {
            RoundEnd::Empty
        };
        assert!(rt; first.ended == Ok(ended) && first.held as u32 == 2 - counted);
        assert!(rt; second.ended == Ok(rest) && second.held == 0);
    }
    Ok(())
}

// A round of two batches whose flash loses power after N calls; how it ended, and how many records are held afterwards.
fn flash_fails(alloc: Global, calls: u64) -> Option<(Result<RoundEnd, MediumFault>, u16)> {
    let mut tracker = with_records(alloc, &[Codec::C8, Codec::C8E])?;
    let counts = b"\x01\x00\x00\x00\x01\x00\x00\x00\x01";
    tracker.restart().ok()?;
    tracker.arm(calls, Tear::Keep);
    let seen = round(alloc, &mut tracker, counts, &[])?;
    tracker.restart().ok()?;
    Some((seen.ended, held(&tracker)))
}

#[test]
fn each_call_of_the_flash_fails_in_turn(rt: HostRuntime) -> Result<(), Fail> {
    let alloc = rt.alloc();
    let failed = Err(MediumFault);
    assert!(rt; flash_fails(alloc, 0) == Some((failed, 2)));
    assert!(rt; flash_fails(alloc, 1) == Some((failed, 2)));
    assert!(rt; flash_fails(alloc, 2) == Some((failed, 1)));
    assert!(rt; flash_fails(alloc, 3) == Some((failed, 1)));
    assert!(rt; flash_fails(alloc, 4) == Some((Ok(RoundEnd::Done(2)), 0)));
    Ok(())
}

// A round of at most `most` batches over a link that gives its bytes in one piece; how it ended, and how many more bytes the link gave.
fn in_one_piece(alloc: Global, incoming: &[u8], most: u32) -> Option<(Seen, usize)> {
    let mut tracker = with_records(alloc, &[Codec::C8, Codec::C8E])?;
    if tracker.is_down() || most == 0 {
        return None;
    }
    let mut link = MemoryLink::new(alloc, incoming, 64, 4096, &[]).ok()?;
    let ended = tracker.round(&mut link, &mut PlainShell, most);
    let seen = Seen {
        ended,
        written: link.written().len(),
        held: held(&tracker),
    };
    let more = link.read(&mut [0; 64]).ok()?;
    Some((seen, more))
}

// The frame of one record has 45 bytes in Codec 8 and 53 in Codec 8 Extended.
#[test]
fn bytes_in_the_same_piece_are_taken_and_not_looked_at(rt: HostRuntime) -> Result<(), Fail> {
    let alloc = rt.alloc();
    let rows: [(&[u8], u32, RoundEnd, usize, u16); 4] = [
        (
            b"\x01\x00\x00\x00\x01\x00\x00\x00\x01\x07",
            4,
            RoundEnd::Done(2),
            115,
            0,
        ),
        (
            b"\x01\x00\x00\x00\x01\x00\x00\x00\x01",
            1,
            RoundEnd::Done(1),
            62,
            1,
        ),
        (b"\x00\x00\x00\x00\x01", 4, RoundEnd::Refused, 17, 2),
        (b"\x01\x00\x00\x00\x01\x00\x00", 4, RoundEnd::Broken, 115, 1),
    ];
    for (incoming, most, ended, written, held) in rows {
        let (seen, more) = in_one_piece(alloc, incoming, most).expect(&rt, "a round");
        assert!(rt; Some(seen) == ending(ended, written, held) && more == 0);
    }
    Ok(())
}
