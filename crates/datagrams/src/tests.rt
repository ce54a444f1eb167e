//! Datagrams and replies read and written: Teltonika's example, and the first faults of bytes made from it.
use super::{Reply, read_datagram, read_reply, write_datagram, write_reply};
use arrayvec::ArrayVec;
use avl_values::{Fault, FaultKind, Imei};
use std::test::Fail;

/// Teltonika's example of a datagram.
fn example() -> [u8; 63] {
    [
        0x00, 0x3d, 0xca, 0xfe, 0x01, 0x05, 0x00, 0x0f, 0x33, 0x35, 0x32, 0x30, 0x39, 0x33, 0x30,
        0x38, 0x36, 0x34, 0x30, 0x33, 0x36, 0x35, 0x35, 0x08, 0x01, 0x00, 0x00, 0x01, 0x6b, 0x4f,
        0x81, 0x5b, 0x30, 0x01, 0x00, 0x00, 0x00, 0x00, 0x00, 0x00, 0x00, 0x00, 0x00, 0x00, 0x00,
        0x00, 0x00, 0x00, 0x00, 0x01, 0x03, 0x02, 0x15, 0x03, 0x01, 0x01, 0x01, 0x42, 0x5d, 0xbc,
        0x00, 0x00, 0x01,
    ]
}

/// Its reply.
const REPLY: Reply = Reply {
    packet: 0xcafe,
    unused: 1,
    avl_packet: 5,
    count: 1,
};

const REPLY_BYTES: [u8; 7] = [0x00, 0x05, 0xca, 0xfe, 0x01, 0x05, 0x01];

/// What is written of the datagram that was read; None where none was.
fn written_again(bytes: &[u8], out: &mut ArrayVec<u8, 1280>) -> Option<bool> {
    match read_datagram(bytes) {
        Ok(datagram) => Some(write_datagram(&datagram, out)),
        Err(_) => None,
    }
}

fn fault_of(bytes: &[u8]) -> Option<Fault> {
    match read_datagram(bytes) {
        Ok(_) => None,
        Err(fault) => Some(fault),
    }
}

#[test]
fn the_example(rt: HostRuntime) -> Result<(), Fail> {
    let bytes = example();
    match read_datagram(&bytes) {
        Ok(datagram) => {
            assert_eq!(rt; datagram.packet, 0xcafe);
            assert_eq!(rt; datagram.unused, 1);
            assert_eq!(rt; datagram.avl_packet, 5);
            assert_eq!(rt; Some(datagram.imei), Imei::from_digits(b"352093086403655"));
            assert_eq!(rt; datagram.body, &bytes[23..]);
        }
        Err(_) => return Err("the example is a datagram".into()),
    }
    let mut out = ArrayVec::new();
    assert_eq!(rt; written_again(&bytes, &mut out), Some(true));
    assert_eq!(rt; out.as_slice(), bytes.as_slice());
    Ok(())
}

#[test]
fn its_reply(rt: HostRuntime) -> Result<(), Fail> {
    assert_eq!(rt; read_reply(&REPLY_BYTES), Ok(REPLY));
    assert_eq!(rt; write_reply(&REPLY), REPLY_BYTES);
    Ok(())
}

fn wrong_replies() -> [&'static [u8]; 5] {
    [
        b"",
        b"\0",
        b"\0\x05\xca\xfe\x01\x05",
        b"\0\x06\xca\xfe\x01\x05\x01",
        b"\0\x05\xca\xfe\x01\x05\x01\0",
    ]
}

#[test]
fn the_length_of_a_reply(rt: HostRuntime) -> Result<(), Fail> {
    for bytes in wrong_replies() {
        assert_eq!(rt;
            read_reply(bytes),
            Err(Fault {
                kind: FaultKind::DatagramLength,
                place: 0
            })
        );
    }
    Ok(())
}

/// First bytes of datagrams, as many as they tell.
fn short_datagrams() -> [(&'static [u8], FaultKind, u32); 9] {
    [
        (b"", FaultKind::DatagramLength, 0),
        (b"\0", FaultKind::DatagramLength, 0),
        (b"\0\x01", FaultKind::DatagramLength, 0),
        (b"\0\0", FaultKind::Overrun, 2),
        (b"\0\x02\xca\xfe", FaultKind::Overrun, 4),
        (b"\0\x04\xca\xfe\x01\x05", FaultKind::Overrun, 6),
        (b"\0\x06\xca\xfe\x01\x05\0\x0e", FaultKind::LoginLength, 6),
        (b"\0\x06\xca\xfe\x01\x05\0\x0f", FaultKind::Overrun, 8),
        (
            b"\0\x15\xca\xfe\x01\x05\0\x0f352093086403655",
            FaultKind::Overrun,
            23,
        ),
    ]
}

#[test]
fn the_first_fault_of_a_short_datagram(rt: HostRuntime) -> Result<(), Fail> {
    for (bytes, kind, place) in short_datagrams() {
        assert_eq!(rt; fault_of(bytes), Some(Fault { kind, place }));
    }
    Ok(())
}

/// A changed byte of the example, and the fault at it.
#[test]
fn the_first_fault_of_a_changed_datagram(rt: HostRuntime) -> Result<(), Fail> {
    let rows = [
        (1, 0x3c, FaultKind::DatagramLength, 0),
        (7, 0x10, FaultKind::LoginLength, 6),
        (23, 0x0c, FaultKind::UnknownCodec, 23),
        (24, 0x00, FaultKind::NoRecords, 24),
        (62, 0x02, FaultKind::CountMismatch, 62),
    ];
    for (at, byte, kind, place) in rows {
        let mut bytes = example();
        if at < 63 {
            bytes[at] = byte;
        }
        assert_eq!(rt; fault_of(&bytes), Some(Fault { kind, place }));
    }
    for place in 8..23 {
        let mut bytes = example();
        bytes[place as usize] = b'a';
        let kind = FaultKind::LoginDigit;
        assert_eq!(rt; fault_of(&bytes), Some(Fault { kind, place }));
    }
    Ok(())
}

/// A datagram of 1,281 bytes with one element of any length, of 1,213 bytes, and one of a byte less.
fn longest() -> [u8; 1281] {
    let mut bytes = [0; 1281];
    let front = *b"\x04\xff\xca\xfe\x01\x05\0\x0f352093086403655\x8e\x01";
    bytes[..25].copy_from_slice(&front);
    bytes[52] = 1;
    bytes[62] = 1;
    bytes[65..67].copy_from_slice(&[0x04, 0xbd]);
    bytes[1280] = 1;
    bytes
}

#[test]
fn the_longest(rt: HostRuntime) -> Result<(), Fail> {
    let mut out = ArrayVec::new();
    let mut bytes = longest();
    assert_eq!(rt; written_again(&bytes, &mut out), Some(false));
    assert_eq!(rt; out.len(), 0);
    bytes[1] = 0xfe;
    bytes[66] = 0xbc;
    bytes[1279] = 1;
    let bytes = bytes.get(..1280).ok_or("1,281 bytes")?;
    assert_eq!(rt; written_again(bytes, &mut out), Some(true));
    assert_eq!(rt; out.as_slice(), bytes);
    Ok(())
}
