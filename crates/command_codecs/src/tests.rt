//! Commands judged, read and written: Teltonika's examples, bodies of each codec and way, and the first faults of small ones.
ghost use Rattle.std.specs.Prelude.{◌≡◌, ◌+◌, ◌<◌, ◌≤◌, ◌^◌, length};

use super::{
    Command, CommandMachine, CommandScan, Way, read_command, scan_command, well_formed,
    write_command,
};
use arrayvec::ArrayVec;
use avl_values::{Fault, FaultKind, Imei};
use layout::Steps;
use std::marker::Brand;
use std::mem::size_of;
use std::process::Abort;
use std::sync::ledger::{Blank, Ledger};
use std::test::Fail;

/// Teltonika's examples, the refusal of Codec 14 among them, and a message of Codec 13.
fn rows() -> [(
    u8,
    u8,
    Option<u32>,
    Option<&'static [u8; 15]>,
    &'static [u8],
    &'static [u8],
); 4] {
    [
        (
            0x0c,
            0x05,
            None,
            None,
            b"getinfo",
            b"\x0c\x01\x05\0\0\0\x07getinfo\x01",
        ),
        (
            0x0e,
            0x05,
            None,
            Some(b"352093081452251"),
            b"getver",
            b"\x0e\x01\x05\0\0\0\x0e\x03\x52\x09\x30\x81\x45\x22\x51getver\x01",
        ),
        (
            0x0e,
            0x11,
            None,
            Some(b"352093081452251"),
            b"",
            b"\x0e\x01\x11\0\0\0\x08\x03\x52\x09\x30\x81\x45\x22\x51\x01",
        ),
        (
            0x0d,
            0x06,
            Some(16),
            None,
            b"ok",
            b"\x0d\x01\x06\0\0\0\x06\0\0\0\x10ok\x01",
        ),
    ]
}

fn imei(digits: Option<&'static [u8; 15]>) -> Option<Imei> {
    Imei::from_digits(digits?.as_slice())
}

#[test]
fn examples(rt: HostRuntime) -> Result<(), Fail> {
    let mut out = ArrayVec::new();
    for (codec, kind, time, digits, text, bytes) in rows() {
        let imei = imei(digits);
        let command = Command {
            codec,
            kind,
            time,
            imei,
            text,
        };
        assert!(rt; write_command(&command, &mut out));
        assert_eq!(rt; out.as_slice(), bytes);
        assert_eq!(rt; well_formed(&command, Way::Down), kind == 5);
        assert_eq!(rt; well_formed(&command, Way::Up), kind != 5);
    }
    Ok(())
}

#[test]
fn examples_are_read(rt: HostRuntime) -> Result<(), Fail> {
    for (codec, kind, time, digits, text, bytes) in rows() {
        let way = if kind == 5 { Way::Down } else { Way::Up };
        assert!(rt; bytes.len() <= 22);
        match read_command(bytes, way) {
            Ok(command) => {
                assert_eq!(rt; command.codec, codec);
                assert_eq!(rt; command.kind, kind);
                assert_eq!(rt; command.time, time);
                assert_eq!(rt; command.imei, imei(digits));
                assert_eq!(rt; command.text, text);
            }
            Err(_) => return Err("each example is a command".into()),
        }
    }
    Ok(())
}

fn zeros() -> [u8; 1261] {
    [0; 1261]
}

#[test]
fn the_longest(rt: HostRuntime) -> Result<(), Fail> {
    let zeros = zeros();
    let mut out = ArrayVec::new();
    for (len, written) in [(1260, true), (1261, false)] {
        let text = zeros.get(..len).ok_or("1,261 bytes")?;
        let command = Command {
            codec: 0x0c,
            kind: 5,
            time: None,
            imei: None,
            text,
        };
        assert_eq!(rt; write_command(&command, &mut out), written);
        assert_eq!(rt; out.len(), if written { 1268 } else { 0 });
    }
    Ok(())
}

fn faults() -> [(&'static [u8], Way, FaultKind, u32); 15] {
    [
        (
            b"\x0d\x01\x06\0\0\0\x06\0\0\0\x10ok\x01",
            Way::Down,
            FaultKind::UnknownCodec,
            0,
        ),
        (
            b"\x0d\x02\x06\0\0\0\x06\0\0\0\x10ok\x01",
            Way::Up,
            FaultKind::Quantity,
            1,
        ),
        (
            b"\x0d\x01\x07\0\0\0\x06\0\0\0\x10ok\x01",
            Way::Up,
            FaultKind::CommandType,
            2,
        ),
        (
            b"\x0d\x01\x06\0\0\0\x05\0\0\0\x10ok\x01",
            Way::Up,
            FaultKind::CommandSize,
            3,
        ),
        (
            b"\x0e\x01\x05\0\0\0\x0e\x13\x52\x09\x30\x81\x45\x22\x51getver\x01",
            Way::Down,
            FaultKind::ImeiDigits,
            7,
        ),
        (
            b"\x0e\x01\x05\0\0\0\x0e\x03\x52\x09\x30\x81\x45\x22\xa1getver\x01",
            Way::Down,
            FaultKind::ImeiDigits,
            14,
        ),
        (
            b"\x0d\x01\x06\0\0\0\x03\0\0\0\x01",
            Way::Up,
            FaultKind::CommandSize,
            3,
        ),
        (
            b"\x0c\x01\x05\0\0\0\x07getinfo\x02",
            Way::Down,
            FaultKind::Quantity,
            14,
        ),
        (
            b"\x0c\x01\x06\0\0\0\x07getinfo\x01",
            Way::Down,
            FaultKind::CommandType,
            2,
        ),
        (
            b"\x0c\x01\x05\0\0\0\x07getinfo\x01",
            Way::Up,
            FaultKind::CommandType,
            2,
        ),
        (
            b"\x0c\x01\x05\0\0\0\0\x02",
            Way::Down,
            FaultKind::Quantity,
            7,
        ),
        (
            b"\x0c\x01\x05\0\0\0\0",
            Way::Down,
            FaultKind::CommandSize,
            3,
        ),
        (b"\x0c\x01\x05\0\0\0", Way::Down, FaultKind::Overrun, 3),
        (b"\x0c\x01\x05", Way::Down, FaultKind::Overrun, 3),
        (b"", Way::Down, FaultKind::Overrun, 0),
    ]
}

fn fault_of(body: &[u8], way: Way) -> Option<Fault>
    requires { length body.now ≤ 2 ^ 31 }
{
    match read_command(body, way) {
        Ok(_) => None,
        Err(fault) => Some(fault),
    }
}

#[test]
fn the_first_fault(rt: HostRuntime) -> Result<(), Fail> {
    for (body, way, kind, place) in faults() {
        assert!(rt; body.len() <= 22);
        assert_eq!(rt;
            scan_command(body, body.len() as u32, way),
            CommandScan::Broken(Fault { kind, place })
        );
        assert_eq!(rt; fault_of(body, way), Some(Fault { kind, place }));
    }
    Ok(())
}

#[test]
fn whole_at_the_last_byte(rt: HostRuntime) -> Result<(), Fail> {
    for (_, kind, _, _, _, bytes) in rows() {
        let way = if kind == 5 { Way::Down } else { Way::Up };
        let total = bytes.len();
        assert!(rt; total <= 22);
        for n in 0..=total {
            let have = bytes.get(..n).ok_or("some first bytes")?;
            let whole = if n == total {
                CommandScan::Whole
            } else {
                CommandScan::More
            };
            assert_eq!(rt; scan_command(have, total as u32, way), whole);
        }
    }
    Ok(())
}

/// A body of each codec, way and type.
fn bodies() -> [(Way, &'static [u8]); 7] {
    [
        (Way::Down, b"\x0c\x01\x05\0\0\0\x07getinfo\x01"),
        (Way::Up, b"\x0c\x01\x06\0\0\0\x02ok\x01"),
        (Way::Up, b"\x0d\x01\x06\0\0\0\x06\0\0\0\x10ok\x01"),
        (
            Way::Down,
            b"\x0e\x01\x05\0\0\0\x0e\x03\x52\x09\x30\x81\x45\x22\x51getver\x01",
        ),
        (
            Way::Up,
            b"\x0e\x01\x06\0\0\0\x0a\x03\x52\x09\x30\x81\x45\x22\x51ok\x01",
        ),
        (
            Way::Up,
            b"\x0e\x01\x11\0\0\0\x08\x03\x52\x09\x30\x81\x45\x22\x51\x01",
        ),
        (
            Way::Up,
            b"\x0f\x01\x0b\0\0\0\x0e\0\0\0\x10\x03\x52\x09\x30\x81\x45\x22\x51ok\x01",
        ),
    ]
}

/// How often a machine returned More, how many steps it took, and its last answer.
#[derive(Drop)]
struct Judged {
    more: usize,
    steps: usize,
    verdict: CommandScan,
}

/// Pushes a body into a machine up to the verdict, beside `scan_command` of the bytes so far. It counts the steps, of which the
/// count that takes no bytes tells the same.
fn pushed<L: Ledger>(rt: &impl Abort, body: &[u8], way: Way, steps: &mut Steps<L>) -> Judged
    requires length { (0 < length body.now) × (length body.now < 1000) }
    ensures counted { steps.new ≡ steps.old + result.steps }
{
    let total = body.len() as u32;
    let mut machine = CommandMachine::new(total, way);
    for i in 0..body.len() {
        let verdict = machine.push(body[i], steps);
        assert_eq!(rt; verdict, scan_command(&body[..i + 1], total, way));
        match verdict {
            CommandScan::More => {}
            verdict => {
                return Judged {
                    more: i,
                    steps: i + 1,
                    verdict,
                }
            }
        }
    }
    Judged {
        more: body.len(),
        steps: body.len(),
        verdict: CommandScan::More,
    }
}

fn both<L: Ledger>(rt: &impl Abort, body: &[u8], way: Way, blank: Blank) -> Judged
    requires name { blank.name ≡ L.name }
    requires parts { blank.parts ≡ L.parts }
    requires some { 0 < blank.parts }
    requires length { (0 < length body.now) × (length body.now < 1000) }
{
    let mut steps = Steps::<L>::new(blank);
    pushed(rt, body, way, &mut steps)
}

#[test]
fn machine_answers_what_scan_command_does(rt: HostRuntime) -> Result<(), Fail> {
    assert!(rt; size_of::<CommandMachine>() <= 128);
    for (way, body) in bodies() {
        let total = body.len();
        assert!(rt; total > 0 && total < 1000);
        let judged = both::<Brand>(&rt, body, way, Blank::new(1));
        assert_eq!(rt; judged.more, total - 1);
        assert_eq!(rt; judged.steps, total);
        assert_eq!(rt; judged.verdict, CommandScan::Whole);
    }
    Ok(())
}

/// A body cut after its size has the wrong size, and one cut in it is overrun.
#[test]
fn machine_answers_what_scan_command_does_on_cut_bodies(rt: HostRuntime) -> Result<(), Fail> {
    for (way, body) in bodies() {
        assert!(rt; body.len() < 1000);
        for end in 1..body.len() {
            let judged = both::<Brand>(&rt, &body[..end], way, Blank::new(1));
            let (kind, place) = match end {
                1 => (FaultKind::Overrun, 1),
                2 => (FaultKind::Overrun, 2),
                3..=6 => (FaultKind::Overrun, 3),
                _ => (FaultKind::CommandSize, 3),
            };
            assert_eq!(rt; judged.verdict, CommandScan::Broken(Fault { kind, place }));
        }
    }
    Ok(())
}
