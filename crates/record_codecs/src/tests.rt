//! Bodies judged and read: those that Teltonika prints for the three codecs, and the first faults of small ones.
ghost use Rattle.std.specs.Prelude.{◌≡◌, ◌+◌, ◌<◌, length};

use crate::{PacketHead, RecordMachine, Scan, is_record, read_packet, records, scan, view};
use avl_values::{Codec, Fault, FaultKind, Gps, Io, Width};
use layout::Steps;
use std::marker::Brand;
use std::mem::size_of;
use std::process::Abort;
use std::sync::ledger::{Blank, Ledger};
use std::test::Fail;

/// The body of Teltonika's first example of Codec 8.
const CODEC_8: [u8; 54] = [
    0x08, 0x01, 0x00, 0x00, 0x01, 0x6b, 0x40, 0xd8, 0xea, 0x30, 0x01, 0x00, 0x00, 0x00, 0x00, 0x00,
    0x00, 0x00, 0x00, 0x00, 0x00, 0x00, 0x00, 0x00, 0x00, 0x00, 0x01, 0x05, 0x02, 0x15, 0x03, 0x01,
    0x01, 0x01, 0x42, 0x5e, 0x0f, 0x01, 0xf1, 0x00, 0x00, 0x60, 0x1a, 0x01, 0x4e, 0x00, 0x00, 0x00,
    0x00, 0x00, 0x00, 0x00, 0x00, 0x01,
];

/// The body of Teltonika's example of Codec 8 Extended.
const CODEC_8_EXTENDED: [u8; 74] = [
    0x8e, 0x01, 0x00, 0x00, 0x01, 0x6b, 0x41, 0x2c, 0xee, 0x00, 0x01, 0x00, 0x00, 0x00, 0x00, 0x00,
    0x00, 0x00, 0x00, 0x00, 0x00, 0x00, 0x00, 0x00, 0x00, 0x00, 0x00, 0x01, 0x00, 0x05, 0x00, 0x01,
    0x00, 0x01, 0x01, 0x00, 0x01, 0x00, 0x11, 0x00, 0x1d, 0x00, 0x01, 0x00, 0x10, 0x01, 0x5e, 0x2c,
    0x88, 0x00, 0x02, 0x00, 0x0b, 0x00, 0x00, 0x00, 0x00, 0x35, 0x44, 0xc8, 0x7a, 0x00, 0x0e, 0x00,
    0x00, 0x00, 0x00, 0x1d, 0xd7, 0xe0, 0x6a, 0x00, 0x00, 0x01,
];

/// The body of Teltonika's example of Codec 16, with two records.
const CODEC_16: [u8; 95] = [
    0x10, 0x02, 0x00, 0x00, 0x01, 0x6b, 0xdb, 0xc7, 0x83, 0x30, 0x00, 0x00, 0x00, 0x00, 0x00, 0x00,
    0x00, 0x00, 0x00, 0x00, 0x00, 0x00, 0x00, 0x00, 0x00, 0x00, 0x00, 0x0b, 0x05, 0x04, 0x02, 0x00,
    0x01, 0x00, 0x00, 0x03, 0x00, 0x02, 0x00, 0x0b, 0x00, 0x27, 0x00, 0x42, 0x56, 0x3a, 0x00, 0x00,
    0x00, 0x00, 0x01, 0x6b, 0xdb, 0xc7, 0x87, 0x18, 0x00, 0x00, 0x00, 0x00, 0x00, 0x00, 0x00, 0x00,
    0x00, 0x00, 0x00, 0x00, 0x00, 0x00, 0x00, 0x00, 0x00, 0x0b, 0x05, 0x04, 0x02, 0x00, 0x01, 0x00,
    0x00, 0x03, 0x00, 0x02, 0x00, 0x0b, 0x00, 0x26, 0x00, 0x42, 0x56, 0x3a, 0x00, 0x00, 0x02,
];

#[test]
fn bodies(rt: HostRuntime) -> Result<(), Fail> {
    assert_eq!(rt;
        read_packet(&CODEC_8),
        Ok(PacketHead {
            codec: Codec::C8,
            count: 1
        })
    );
    assert_eq!(rt;
        read_packet(&CODEC_8_EXTENDED),
        Ok(PacketHead {
            codec: Codec::C8E,
            count: 1
        })
    );
    assert_eq!(rt;
        read_packet(&CODEC_16),
        Ok(PacketHead {
            codec: Codec::C16,
            count: 2
        })
    );
    Ok(())
}

/// A body of one record of Codec 8 without elements: 30 zero bytes between the first two bytes and the rest.
fn small(rest: [u8; 2]) -> [u8; 34] {
    let mut body = [0; 34];
    body[0] = 0x08;
    body[1] = 1;
    body[32] = rest[0];
    body[33] = rest[1];
    body
}

#[test]
fn first_faults(rt: HostRuntime) -> Result<(), Fail> {
    let mut odd = CODEC_8;
    odd[27] = 4;
    let small_1 = small([1, 0]);
    let small_2 = small([2, 0]);
    let rows: [(&[u8], FaultKind, u32); 9] = [
        (&[], FaultKind::Overrun, 0),
        (&[0x09], FaultKind::UnknownCodec, 0),
        (&[0x08, 0x00], FaultKind::NoRecords, 1),
        (&[0x08, 0x01], FaultKind::Overrun, 2),
        (&small_1[..32], FaultKind::Overrun, 32),
        (&small_2[..33], FaultKind::CountMismatch, 32),
        (&small_1, FaultKind::Excess, 33),
        (&small_2, FaultKind::CountMismatch, 32),
        (&odd, FaultKind::TotalMismatch, 43),
    ];
    for (body, kind, place) in rows {
        assert_eq!(rt; read_packet(body), Err(Fault { kind, place }));
    }
    Ok(())
}

/// How often a machine returned More, how many steps it took, and its last answer.
#[derive(Drop)]
struct Judged {
    more: usize,
    steps: usize,
    verdict: Scan,
}

/// Pushes a body into a machine up to the verdict, beside `scan` of the bytes so far. It counts the steps, of which the count
/// that takes no bytes tells the same.
fn pushed<L: Ledger>(rt: &impl Abort, body: &[u8], steps: &mut Steps<L>) -> Judged
    requires length { (0 < length body.now) × (length body.now < 1000) }
    ensures counted { steps.new ≡ steps.old + result.steps }
{
    let total = body.len() as u32;
    let mut machine = RecordMachine::new(total);
    for i in 0..body.len() {
        let verdict = machine.push(body[i], steps);
        assert_eq!(rt; verdict, scan(&body[..i + 1], total));
        match verdict {
            Scan::More => {}
            verdict => {
                return Judged {
                    more: i,
                    steps: i + 1,
                    verdict,
                }
            }
        }
    }
    Judged {
        more: body.len(),
        steps: body.len(),
        verdict: Scan::More,
    }
}

fn both<L: Ledger>(rt: &impl Abort, body: &[u8], blank: Blank) -> Judged
    requires name { blank.name ≡ L.name }
    requires parts { blank.parts ≡ L.parts }
    requires some { 0 < blank.parts }
    requires length { (0 < length body.now) × (length body.now < 1000) }
{
    let mut steps = Steps::<L>::new(blank);
    pushed(rt, body, &mut steps)
}

#[test]
fn machine_answers_what_scan_does(rt: HostRuntime) -> Result<(), Fail> {
    assert!(rt; size_of::<RecordMachine>() <= 128);
    let judged = both::<Brand>(&rt, &CODEC_8_EXTENDED, Blank::new(1));
    assert_eq!(rt; judged.more, 73);
    assert_eq!(rt; judged.steps, 74);
    assert_eq!(rt;
        judged.verdict,
        Scan::Whole(PacketHead {
            codec: Codec::C8E,
            count: 1
        })
    );
    Ok(())
}

#[test]
fn machine_answers_what_scan_does_on_cut_bodies(rt: HostRuntime) -> Result<(), Fail> {
    let bodies: [&[u8]; 3] = [&CODEC_8, &CODEC_8_EXTENDED, &CODEC_16];
    for body in bodies {
        assert!(rt; body.len() < 1000);
        for end in 1..body.len() {
            let judged = both::<Brand>(&rt, &body[..end], Blank::new(1));
            assert!(rt; judged.more < end);
            assert!(rt;
                matches!(
                    judged.verdict,
                    Scan::Broken(Fault {
                        kind: FaultKind::Overrun,
                        ..
                    })
                )
            );
        }
    }
    Ok(())
}

/// A record of Codec 8 Extended with one element of any length, west and south of the origin and below the sea.
const EXTENDED_RECORD: [u8; 45] = [
    0, 0, 0, 0, 0, 0, 0, 5, 2, 0xff, 0xff, 0xff, 0xfe, 0x80, 0, 0, 0, 0xff, 0xff, 0x01, 0x67, 9, 0,
    80, 0, 7, 0, 1, 0, 0, 0, 0, 0, 0, 0, 0, 0, 1, 0, 7, 0, 3, 1, 2, 3,
];

#[test]
fn values_of_16(rt: HostRuntime) -> Result<(), Fail> {
    let mut both_records = records(&CODEC_16);
    assert_eq!(rt; both_records.next().map_or(0, |r| r.len()), 46);
    let second = both_records.next().ok_or("two records")?;
    let in_16 = view(Codec::C16, second);
    assert_eq!(rt; in_16.event(), 11);
    assert_eq!(rt; in_16.generation(), Some(5));
    assert!(rt; both_records.next().is_none());
    Ok(())
}

#[test]
fn values_of_8(rt: HostRuntime) -> Result<(), Fail> {
    let first = records(&CODEC_8).next().ok_or("one record")?;
    let in_8 = view(Codec::C8, first);
    assert_eq!(rt; in_8.time(), 1_560_161_086_000);
    assert_eq!(rt; in_8.priority(), 1);
    assert_eq!(rt; in_8.generation(), None);
    let mut ios = in_8.ios();
    assert_eq!(rt; ios.next(), Io::new(21, Width::W1, 3));
    assert_eq!(rt; ios.next(), Io::new(1, Width::W1, 1));
    assert_eq!(rt; ios.next(), Io::new(66, Width::W2, 0x5e0f));
    assert_eq!(rt; ios.next(), Io::new(241, Width::W4, 0x601a));
    assert_eq!(rt; ios.next(), Io::new(78, Width::W8, 0));
    assert_eq!(rt; ios.next(), None);
    assert!(rt; in_8.nx().next().is_none());
    Ok(())
}

#[test]
fn values_of_8_extended(rt: HostRuntime) -> Result<(), Fail> {
    let extended = view(Codec::C8E, &EXTENDED_RECORD);
    let gps = Gps {
        longitude: -2,
        latitude: i32::MIN,
        altitude: -1,
        angle: 359,
        satellites: 9,
        speed: 80,
    };
    assert_eq!(rt; extended.gps(), gps);
    assert_eq!(rt; extended.event(), 7);
    let mut nx = extended.nx();
    let (id, bytes) = nx.next().ok_or("one element")?;
    assert_eq!(rt; id, 7);
    assert_eq!(rt; bytes, [1, 2, 3].as_slice());
    assert!(rt; nx.next().is_none());
    Ok(())
}

#[test]
fn records_alone(rt: HostRuntime) -> Result<(), Fail> {
    assert!(rt; is_record(Codec::C8E, &EXTENDED_RECORD));
    assert!(rt; !is_record(Codec::C8, &EXTENDED_RECORD));
    assert!(rt; !is_record(Codec::C8E, &EXTENDED_RECORD[..44]));
    assert!(rt; is_record(Codec::C8, &[0; 30]));
    assert!(rt; !is_record(Codec::C8, &[0; 31]));
    assert!(rt; is_record(Codec::C16, &[0; 32]));
    assert!(rt; is_record(Codec::C8E, &[0; 38]));
    Ok(())
}
