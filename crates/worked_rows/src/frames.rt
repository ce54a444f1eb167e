ghost use Rattle.std.specs.Prelude.{◌≡◌, ◌+◌, ◌<◌, ◌≤◌, length};

use arrayvec::ArrayVec;
use avl_values::{Codec, Fault, FaultKind, Imei};
use crc_field::crc;
use frame_channel::{Down, DownItem, Up, UpItem, write_frame, write_login};
use hex::decode;
use layout::Steps;
use record_codecs::{PacketHead, read_packet};
use std::alloc::{AllocError, Global};
use std::marker::Brand;
use std::sync::ledger::{Blank, Ledger};
use std::test::Fail;

/// Teltonika's example of Codec 8, a frame of one record.
const CODEC_8: &str =
    "000000000000003608010000016b40d8ea30010000000000000000000000000000000105021503010101425e0f01f10000601a014e0000000000000000010000c7cf";

/// Teltonika's example of Codec 8 Extended, a frame of one record.
const CODEC_8_EXTENDED: &str =
    "000000000000004a8e010000016b412cee000100000000000000000000000000000000010005000100010100010011001d00010010015e2c880002000b000000003544c87a000e000000001dd7e06a00000100002994";

/// Teltonika's example of Codec 16, a frame of two records.
const CODEC_16: &str =
    "000000000000005f10020000016bdbc7833000000000000000000000000000000000000b05040200010000030002000b00270042563a00000000016bdbc7871800000000000000000000000000000000000b05040200010000030002000b00260042563a00000200005fb3";

/// Teltonika's example of a login.
const LOGIN: &str = "000f333536333037303432343431303133";

fn bytes_of(alloc: Global, text: &str) -> Option<Vec<u8>> {
    let Ok(bytes) = decode(alloc, text.as_bytes()) else {
        return None;
    };
    Some(bytes)
}

// A reader of a stream up, at its login or after it.
fn reader(alloc: Global, after_login: bool) -> Option<Up> {
    let up = if after_login {
        Up::frames(alloc)
    } else {
        Up::new(alloc)
    };
    match up {
        Ok(up) => Some(up),
        Err(_) => None,
    }
}

// The frame of a body that is judged whole.
fn framed(body: &[u8]) -> Option<ArrayVec<u8, 1280>> {
    if body.len() > 1268 {
        return None;
    }
    let Ok(_head) = read_packet(body) else {
        return None;
    };
    let mut out = ArrayVec::new();
    write_frame(body, &mut out);
    Some(out)
}

// Whether a body's frame is this one.
fn is_framed(body: &[u8], frame: &[u8]) -> bool {
    match framed(body) {
        Some(again) => again.as_slice() == frame,
        None => false,
    }
}

// Whether a frame is read whole, with this head, lends its body, and is written again as it was.
fn is_example(alloc: Global, text: &str, codec: Codec, count: u8) -> bool {
    let Some(frame) = bytes_of(alloc, text) else {
        return false;
    };
    let Some(mut up) = reader(alloc, true) else {
        return false;
    };
    let packet = PacketHead { codec, count };
    answer(&mut up, &frame) == Some((frame.len(), UpItem::Packet(packet), 0))
        && is_framed(up.body(), &frame)
}

#[test]
fn example_frames(rt: HostRuntime) -> Result<(), Fail> {
    assert!(rt; is_example(rt.alloc(), CODEC_8, Codec::C8, 1));
    assert!(rt; is_example(rt.alloc(), CODEC_8_EXTENDED, Codec::C8E, 1));
    assert!(rt; is_example(rt.alloc(), CODEC_16, Codec::C16, 2));
    Ok(())
}

// What a reader returns to one piece, with how many bytes it has then.
fn answer(up: &mut Up, piece: &[u8]) -> Option<(usize, UpItem, u32)> {
    if up.failed() {
        return None;
    }
    let (n, item) = up.push(piece);
    Some((n, item, up.have()))
}

// Whether a frame is read in two pieces, of 20 bytes and the rest.
fn is_read_in_two(up: &mut Up, frame: &[u8]) -> bool {
    if frame.len() < 20 {
        return false;
    }
    let (front, back) = frame.split_at(20);
    let packet = PacketHead {
        codec: Codec::C8,
        count: 1,
    };
    answer(up, front) == Some((20, UpItem::More, 20))
        && answer(up, back) == Some((46, UpItem::Packet(packet), 0))
}

// Whether a login is read.
fn is_login(up: &mut Up, login: &[u8], imei: Imei) -> bool {
    answer(up, login) == Some((17, UpItem::Login(imei), 0))
}

#[test]
fn a_login_and_a_frame_in_two_pieces(rt: HostRuntime) -> Result<(), Fail> {
    let alloc = rt.alloc();
    let imei = Imei::from_digits(b"356307042441013").ok_or("15 digits")?;
    let login = bytes_of(alloc, LOGIN).ok_or("hex")?;
    let frame = bytes_of(alloc, CODEC_8).ok_or("hex")?;
    let mut up = reader(alloc, false).ok_or("ample memory")?;
    assert!(rt; is_login(&mut up, &login, imei));
    assert!(rt; is_read_in_two(&mut up, &frame));
    Ok(())
}

// What comes of a stream in two pieces, cut at a place: the answer that ends it, or More, and how many bytes were taken.
fn in_two(up: &mut Up, bytes: &[u8], cut: usize) -> (UpItem, usize)
    requires { cut ≤ length bytes.now }
{
    if up.failed() {
        return (UpItem::More, 0);
    }
    let (front, back) = bytes.split_at(cut);
    let (n, item) = up.push(front);
    if item != UpItem::More || up.failed() {
        return (item, n);
    }
    let (m, item) = up.push(back);
    (item, n + m)
}

// Whether a stream is broken with this fault at the same byte, however it is cut in two.
fn is_broken(
    alloc: Global,
    after_login: bool,
    bytes: &[u8],
    kind: FaultKind,
    place: u32,
    taken: usize,
) -> bool {
    for cut in 0..bytes.len() + 1 {
        let Some(mut up) = reader(alloc, after_login) else {
            return false;
        };
        if in_two(&mut up, bytes, cut) != (UpItem::Broken(Fault { kind, place }), taken) {
            return false;
        }
        if !up.failed() {
            return false;
        }
    }
    true
}

// The first example with other bytes at a place.
fn changed(alloc: Global, place: usize, bytes: &[u8]) -> Option<Vec<u8>> {
    let mut frame = bytes_of(alloc, CODEC_8)?;
    for (i, byte) in bytes.iter().enumerate() {
        if place < frame.len() && i < frame.len() - place {
            frame[place + i] = *byte;
        }
    }
    Some(frame)
}

fn text_is_broken(
    alloc: Global,
    after_login: bool,
    text: &str,
    kind: FaultKind,
    place: u32,
    taken: usize,
) -> bool {
    let Some(bytes) = bytes_of(alloc, text) else {
        return false;
    };
    is_broken(alloc, after_login, &bytes, kind, place, taken)
}

fn change_is_broken(
    alloc: Global,
    at: usize,
    bytes: &[u8],
    kind: FaultKind,
    place: u32,
    taken: usize,
) -> bool {
    let Some(frame) = changed(alloc, at, bytes) else {
        return false;
    };
    is_broken(alloc, true, &frame, kind, place, taken)
}

#[test]
fn first_faults_of_frames(rt: HostRuntime) -> Result<(), Fail> {
    let rows = [
        ("ff000000", FaultKind::Preamble, 0, 4),
        ("0000000000000002", FaultKind::Length, 4, 8),
        ("0000000000010000", FaultKind::Length, 4, 8),
        ("000000000000000307", FaultKind::UnknownCodec, 8, 9),
        ("00000000000000030c0106", FaultKind::Overrun, 11, 11),
        ("00000000000000030800", FaultKind::NoRecords, 9, 10),
        ("00000000000000030801", FaultKind::Overrun, 10, 10),
    ];
    for (text, kind, place, taken) in rows {
        assert!(rt; text_is_broken(rt.alloc(), true, text, kind, place, taken));
    }
    Ok(())
}

#[test]
fn first_faults_of_logins(rt: HostRuntime) -> Result<(), Fail> {
    let rows = [
        ("0010", FaultKind::LoginLength, 0, 2),
        (
            "000f333536333037303432343431303141",
            FaultKind::LoginDigit,
            16,
            17,
        ),
        ("000f2f", FaultKind::LoginDigit, 2, 3),
    ];
    for (text, kind, place, taken) in rows {
        assert!(rt; text_is_broken(rt.alloc(), false, text, kind, place, taken));
    }
    Ok(())
}

#[test]
fn first_faults_of_a_changed_frame(rt: HostRuntime) -> Result<(), Fail> {
    let alloc = rt.alloc();
    assert!(rt; change_is_broken(alloc, 65, &[0xce], FaultKind::CrcMismatch, 64, 66));
    assert!(rt; change_is_broken(alloc, 62, &[0, 1], FaultKind::CrcHigh, 62, 64));
    assert!(rt; change_is_broken(alloc, 35, &[4], FaultKind::TotalMismatch, 51, 52));
    Ok(())
}

// What a reader of a stream down answers to one piece.
fn down_answer(down: &mut Down, text: &str, alloc: Global) -> Option<(usize, DownItem)> {
    let bytes = bytes_of(alloc, text)?;
    if down.failed() {
        return None;
    }
    Some(down.push(&bytes))
}

// Whether a reader of a stream down takes N bytes of a text, and answers this.
fn tells(alloc: Global, down: &mut Down, text: &str, taken: usize, item: DownItem) -> bool {
    down_answer(down, text, alloc) == Some((taken, item))
}

#[test]
fn answers_and_counts(rt: HostRuntime) -> Result<(), Fail> {
    let alloc = rt.alloc();
    let mut down = Down::new();
    assert!(rt; tells(alloc, &mut down, "0100000001", 1, DownItem::Login(1)));
    assert!(rt; tells(alloc, &mut down, "00000001", 4, DownItem::Count(1)));
    assert!(rt; tells(alloc, &mut down, "0000", 2, DownItem::More));
    assert!(rt; down.have() == 2);
    assert!(rt; tells(alloc, &mut down, "00ff00", 2, DownItem::Count(255)));
    assert!(rt; down.body().is_empty());
    Ok(())
}

// Whether a stream of answers down is broken with this fault.
fn is_broken_down(alloc: Global, text: &str, kind: FaultKind, place: u32, taken: usize) -> bool {
    let mut down = Down::answers();
    tells(
        alloc,
        &mut down,
        text,
        taken,
        DownItem::Broken(Fault { kind, place }),
    ) && down.failed()
}

#[test]
fn first_faults_down(rt: HostRuntime) -> Result<(), Fail> {
    let rows = [
        ("0000000000000002", FaultKind::Length, 4, 8),
        ("00000000000004f5", FaultKind::Length, 4, 8),
        ("00000000000004f40d", FaultKind::UnknownCodec, 8, 9),
        ("00000000000004f408", FaultKind::UnknownCodec, 8, 9),
    ];
    for (text, kind, place, taken) in rows {
        assert!(rt; is_broken_down(rt.alloc(), text, kind, place, taken));
    }
    Ok(())
}

// A record of Codec 8 Extended with 255 bytes: one element of 213 bytes.
fn push_record(frame: &mut Vec<u8>, time: u8) -> Result<(), AllocError> {
    frame.extend_from_slice(&[0; 7])?;
    frame.push(time)?;
    frame.extend_from_slice(&[0; 16])?;
    frame.extend_from_slice(&[0, 0, 0, 1, 0, 0, 0, 0, 0, 0, 0, 0, 0, 1, 0, 7, 0, 213])?;
    frame.extend_from_slice(&[0; 213])
}

// The longest body of 255 such records, in its frame.
fn long_frame(alloc: Global) -> Result<Vec<u8>, AllocError> {
    let mut body = Vec::new(alloc);
    body.extend_from_slice(&[0x8e, 255])?;
    for time in 0..255 {
        push_record(&mut body, time)?;
    }
    body.push(255)?;
    let mut frame = Vec::new(alloc);
    frame.extend_from_slice(&[0, 0, 0, 0, 0, 0, 0xfe, 0x04])?;
    frame.extend_from_slice(&body)?;
    frame.extend_from_slice(&[0, 0])?;
    frame.extend_from_slice(&crc(&body).to_be_bytes())?;
    Ok(frame)
}

// What was told of some bytes: how many steps they took, how many logins and packets came, and how many records.
#[derive(Clone, Copy, PartialEq, Eq)]
struct Told {
    steps: usize,
    logins: u32,
    packets: u32,
    records: u32,
}

const NOTHING: Told = Told {
    steps: 0,
    logins: 0,
    packets: 0,
    records: 0,
};

// Pushes bytes one by one. It counts the steps, of which the count that takes no bytes tells the same.
fn push_single<L: Ledger>(up: &mut Up, bytes: &[u8], steps: &mut Steps<L>) -> Told
    ensures { steps.new ≡ steps.old + result.steps }
{
    let mut told = NOTHING;
    for i in 0..bytes.len() {
        if up.failed() {
            return told;
        }
        let (n, item) = up.push_counted(&bytes[i..i + 1], steps);
        told.steps += n;
        match item {
            UpItem::Login(_) => told.logins = told.logins.saturating_add(1),
            UpItem::Packet(head) => {
                told.packets = told.packets.saturating_add(1);
                told.records = told.records.saturating_add(head.count as u32);
            }
            UpItem::More | UpItem::Response | UpItem::Broken(_) => {}
        }
    }
    told
}

// What was told of some bytes, and of more after them.
fn both(a: Told, b: Told) -> Told {
    Told {
        steps: a.steps.saturating_add(b.steps),
        logins: a.logins.saturating_add(b.logins),
        packets: a.packets.saturating_add(b.packets),
        records: a.records.saturating_add(b.records),
    }
}

// A login and sixteen long frames, byte by byte.
fn long_stream<L: Ledger>(alloc: Global, blank: Blank) -> Option<Told>
    requires name { blank.name ≡ L.name }
    requires parts { blank.parts ≡ L.parts }
    requires some { 0 < blank.parts }
{
    let login = bytes_of(alloc, LOGIN)?;
    let Ok(frame) = long_frame(alloc) else {
        return None;
    };
    let Ok(mut up) = Up::new(alloc) else {
        return None;
    };
    let mut steps = Steps::<L>::new(blank);
    let mut told = push_single(&mut up, &login, &mut steps);
    for _ in 0..16 {
        told = both(told, push_single(&mut up, &frame, &mut steps));
    }
    Some(told)
}

#[test]
fn a_million_bytes_one_by_one(rt: HostRuntime) -> Result<(), Fail> {
    let told = long_stream::<Brand>(rt.alloc(), Blank::new(1)).ok_or("ample memory")?;
    let wanted = Told {
        steps: 1_040_657,
        logins: 1,
        packets: 16,
        records: 16 * 255,
    };
    assert!(rt; told == wanted);
    Ok(())
}

#[test]
fn a_written_login_is_read(rt: HostRuntime) -> Result<(), Fail> {
    let imei = Imei::from_digits(b"356307042441013").ok_or("15 digits")?;
    let mut up = reader(rt.alloc(), false).ok_or("ample memory")?;
    assert!(rt; is_login(&mut up, &write_login(imei), imei));
    Ok(())
}
