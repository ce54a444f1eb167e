//! Frames of commands and responses: Teltonika's examples, written and read whole and byte by byte, and what is no frame of its way.
use arrayvec::ArrayVec;
use avl_values::{Fault, FaultKind, Imei};
use command_codecs::{Command, Way, well_formed, write_command};
use frame_channel::{Down, DownItem, Up, UpItem, write_frame};
use hex::decode;
use std::alloc::Global;
use std::test::Fail;

/// Teltonika's example of Codec 12, the command `getinfo`.
const GETINFO: &str = "000000000000000f0c010500000007676574696e666f0100004312";

/// Teltonika's example of Codec 14, the command `getver` for 352093081452251.
const GETVER: &str = "00000000000000160e01050000000e0352093081452251676574766572010000d2c1";

/// Teltonika's example of a login.
const LOGIN: &str = "000f333536333037303432343431303133";

fn bytes_of(alloc: Global, text: &str) -> Option<Vec<u8>> {
    let Ok(bytes) = decode(alloc, text.as_bytes()) else {
        return None;
    };
    Some(bytes)
}

fn command(codec: u8, kind: u8, imei: Option<Imei>, text: &[u8]) -> Command<'_> {
    Command {
        codec,
        kind,
        time: None,
        imei,
        text,
    }
}

// The frame of a command, where it may pass this way.
fn framed(command: &Command<'_>, way: Way) -> Option<ArrayVec<u8, 1280>> {
    if !well_formed(command, way) {
        return None;
    }
    let mut body = ArrayVec::new();
    if !write_command(command, &mut body) {
        return None;
    }
    let mut out = ArrayVec::new();
    write_frame(&body, &mut out);
    Some(out)
}

fn is_written(alloc: Global, command: &Command<'_>, way: Way, text: &str) -> bool {
    let Some(bytes) = bytes_of(alloc, text) else {
        return false;
    };
    let Some(frame) = framed(command, way) else {
        return false;
    };
    frame.as_slice() == bytes.as_slice()
}

#[test]
fn example_commands_are_written(rt: HostRuntime) -> Result<(), Fail> {
    let alloc = rt.alloc();
    let imei = Imei::from_digits(b"352093081452251").ok_or("15 digits")?;
    let getinfo = command(0x0c, 0x05, None, b"getinfo");
    let getver = command(0x0e, 0x05, Some(imei), b"getver");
    assert!(rt; is_written(alloc, &getinfo, Way::Down, GETINFO));
    assert!(rt; is_written(alloc, &getver, Way::Down, GETVER));
    assert!(rt; framed(&getinfo, Way::Up).is_none());
    Ok(())
}

// What a reader of a stream down answers to bytes in pieces of at most N, up to the first answer that isn't More.
fn in_pieces(down: &mut Down, bytes: &[u8], piece: usize) -> DownItem {
    if piece == 0 {
        return DownItem::More;
    }
    for part in bytes.chunks(piece) {
        if down.failed() {
            return DownItem::More;
        }
        let (_, item) = down.push(part);
        if item != DownItem::More {
            return item;
        }
    }
    DownItem::More
}

// Whether a frame is read as a command, and its body is lent, however it is cut in equal pieces.
fn is_order(alloc: Global, text: &str, body: &[u8]) -> bool {
    let Some(frame) = bytes_of(alloc, text) else {
        return false;
    };
    for piece in 1..frame.len() + 1 {
        let mut down = Down::answers();
        if in_pieces(&mut down, &frame, piece) != DownItem::Order || down.have() != 0 {
            return false;
        }
        if down.body() != body {
            return false;
        }
    }
    true
}

#[test]
fn example_commands_are_read(rt: HostRuntime) -> Result<(), Fail> {
    let alloc = rt.alloc();
    assert!(rt; is_order(alloc, GETINFO, b"\x0c\x01\x05\0\0\0\x07getinfo\x01"));
    assert!(rt;
        is_order(
            alloc,
            GETVER,
            b"\x0e\x01\x05\0\0\0\x0e\x03\x52\x09\x30\x81\x45\x22\x51getver\x01"
        )
    );
    Ok(())
}

// What a reader of a stream down answers to the text.
fn down_answer(alloc: Global, down: &mut Down, text: &str) -> Option<(usize, DownItem)> {
    let bytes = bytes_of(alloc, text)?;
    if down.failed() {
        return None;
    }
    Some(down.push(&bytes))
}

// Whether a reader of a stream down takes N bytes of a text, and answers this.
fn tells(alloc: Global, down: &mut Down, text: &str, taken: usize, item: DownItem) -> bool {
    down_answer(alloc, down, text) == Some((taken, item))
}

#[test]
fn a_command_between_counts(rt: HostRuntime) -> Result<(), Fail> {
    let alloc = rt.alloc();
    let mut down = Down::answers();
    assert!(rt; tells(alloc, &mut down, "00000001", 4, DownItem::Count(1)));
    assert!(rt; down.body().is_empty());
    assert!(rt; tells(alloc, &mut down, GETINFO, 27, DownItem::Order));
    assert!(rt; tells(alloc, &mut down, "00000002", 4, DownItem::Count(2)));
    assert!(rt; down.body().len() == 15);
    down.begin_answers();
    assert!(rt; down.body().is_empty());
    Ok(())
}

// What a reader of a stream up answers to bytes.
fn up_answer(up: &mut Up, bytes: &[u8]) -> Option<(usize, UpItem)> {
    if up.failed() {
        return None;
    }
    Some(up.push(bytes))
}

// A reader of a stream up, at its login or after it.
fn reader(alloc: Global, after_login: bool) -> Option<Up> {
    let up = if after_login {
        Up::frames(alloc)
    } else {
        Up::new(alloc)
    };
    match up {
        Ok(up) => Some(up),
        Err(_) => None,
    }
}

// Whether the response is read, and its body is lent.
fn is_response(up: &mut Up, frame: &[u8]) -> bool {
    up_answer(up, frame) == Some((22, UpItem::Response))
        && up.body() == b"\x0c\x01\x06\0\0\0\x02ok\x01".as_slice()
}

// Whether a response is refused at its type on the way down.
fn is_no_order(frame: &[u8]) -> bool {
    let mut down = Down::answers();
    let kind = FaultKind::CommandType;
    in_pieces(&mut down, frame, 40) == DownItem::Broken(Fault { kind, place: 10 })
}

#[test]
fn a_response_up(rt: HostRuntime) -> Result<(), Fail> {
    let response = command(0x0c, 0x06, None, b"ok");
    let frame = framed(&response, Way::Up).ok_or("a response")?;
    let mut up = reader(rt.alloc(), true).ok_or("ample memory")?;
    assert!(rt; is_response(&mut up, &frame));
    assert!(rt; is_no_order(&frame));
    Ok(())
}

// Whether a reader of a stream up fails at the type of these bytes.
fn fails_at_type(up: &mut Up, bytes: &[u8]) -> bool {
    let kind = FaultKind::CommandType;
    up_answer(up, bytes) == Some((11, UpItem::Broken(Fault { kind, place: 10 }))) && up.failed()
}

// How many bytes of a login are taken.
fn taken(up: &mut Up, login: &[u8]) -> Option<usize> {
    let (taken, _) = up_answer(up, login)?;
    Some(taken)
}

// Whether the stream goes on with a login once it was begun anew.
fn begins_login(up: &mut Up) -> bool {
    up.begin_login();
    up_answer(up, b"\0\x0f") == Some((2, UpItem::More))
}

#[test]
fn a_command_up(rt: HostRuntime) -> Result<(), Fail> {
    let alloc = rt.alloc();
    let login = bytes_of(alloc, LOGIN).ok_or("hex")?;
    let frame = bytes_of(alloc, GETINFO).ok_or("hex")?;
    let mut up = reader(alloc, false).ok_or("ample memory")?;
    assert!(rt; taken(&mut up, &login) == Some(17));
    assert!(rt; fails_at_type(&mut up, &frame));
    assert!(rt; begins_login(&mut up));
    up.begin_frames();
    assert!(rt; fails_at_type(&mut up, &frame));
    Ok(())
}
