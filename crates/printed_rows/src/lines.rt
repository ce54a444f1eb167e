//! The lines of Teltonika's examples, and of small items.
use avl_values::{Codec, Fault, FaultKind, Imei};
use command_codecs::Command;
use record_codecs::PacketHead;
use show_lines::{Item, push_command_line, push_line, push_packet_lines, push_record_line};
use std::test::Fail;

fn imei(number: u64) -> Result<Imei, Fail> {
    match Imei::from_number(number) {
        Some(imei) => Ok(imei),
        None => Err(Fail::new("an IMEI has 15 digits")),
    }
}

/// Each item that takes one line.
fn items() -> Result<[(Item, u32); 10], Fail> {
    Ok([
        (Item::Login(imei(356_307_042_441_013)?), 1),
        (Item::Answer(1), 1),
        (Item::Answer(0), 12),
        (Item::Answer(2), 1),
        (Item::Count(1), 1),
        (Item::Short { have: 20 }, 1),
        (
            Item::Fault(Fault {
                kind: FaultKind::CrcMismatch,
                place: 64,
            }),
            1,
        ),
        (
            Item::Packet(PacketHead {
                codec: Codec::C8E,
                count: 1,
            }),
            1,
        ),
        (
            Item::Datagram {
                packet: 0xcafe,
                unused: 1,
                avl_packet: 5,
                imei: imei(352_093_086_403_655)?,
            },
            1,
        ),
        (
            Item::Reply {
                packet: 0xcafe,
                unused: 1,
                avl_packet: 5,
                count: 1,
            },
            2,
        ),
    ])
}

fn item_lines() -> &'static str {
    "\
{\"imei\":\"356307042441013\",\"item\":\"login\",\"line\":1}
{\"accepted\":true,\"item\":\"answer\",\"line\":1}
{\"accepted\":false,\"item\":\"answer\",\"line\":12}
{\"byte\":2,\"item\":\"answer\",\"line\":1}
{\"count\":1,\"item\":\"count\",\"line\":1}
{\"have\":20,\"item\":\"short\",\"line\":1}
{\"fault\":\"CrcMismatch\",\"item\":\"fault\",\"line\":1,\"number\":10,\"place\":64}
{\"codec\":142,\"count\":1,\"item\":\"packet\",\"line\":1}
{\"avl_packet\":5,\"imei\":\"352093086403655\",\"item\":\"datagram\",\"line\":1,\"packet\":51966,\"unused\":1}
{\"avl_packet\":5,\"count\":1,\"item\":\"reply\",\"line\":2,\"packet\":51966,\"unused\":1}
"
}

#[test]
fn items_take_one_line(rt: HostRuntime) -> Result<(), Fail> {
    let mut out = Vec::new(rt.alloc());
    for (item, line) in &items()? {
        push_line(&mut out, item, *line)?;
    }
    assert_eq!(rt; out.as_slice(), item_lines().as_bytes());
    Ok(())
}

/// A command as its codec id, type, time, IMEI and text: `getinfo` of Codec 12, `getver` of Codec 14 for a device, and an empty
/// message of Codec 15.
fn commands() -> [(u8, u8, Option<u32>, Option<u64>, &'static [u8]); 3] {
    [
        (12, 5, None, None, b"getinfo"),
        (14, 5, None, Some(352_093_081_452_251), b"getver"),
        (15, 11, Some(16), Some(1), b""),
    ]
}

fn command_lines() -> &'static str {
    "\
{\"codec\":12,\"imei\":null,\"item\":\"command\",\"kind\":5,\"line\":1,\"text\":\"676574696e666f\",\"time\":null}
{\"codec\":14,\"imei\":\"352093081452251\",\"item\":\"command\",\"kind\":5,\"line\":1,\"text\":\"676574766572\",\"time\":null}
{\"codec\":15,\"imei\":\"000000000000001\",\"item\":\"command\",\"kind\":11,\"line\":1,\"text\":\"\",\"time\":16}
"
}

#[test]
fn commands_take_one_line(rt: HostRuntime) -> Result<(), Fail> {
    let mut out = Vec::new(rt.alloc());
    for (codec, kind, time, number, text) in &commands() {
        let command = Command {
            codec: *codec,
            kind: *kind,
            time: *time,
            imei: number.and_then(Imei::from_number),
            text,
        };
        push_command_line(&mut out, &command, 1)?;
    }
    assert_eq!(rt; out.as_slice(), command_lines().as_bytes());
    Ok(())
}

/// Bodies of Teltonika's examples: Codec 8, Codec 8 Extended, Codec 16 with two records, and that of the UDP example.
fn bodies() -> [(PacketHead, &'static str); 4] {
    [
        (
            PacketHead {
                codec: Codec::C8,
                count: 1,
            },
            "08010000016b40d8ea30010000000000000000000000000000000105021503010101425e0f01f10000601a014e000000000000000001",
        ),
        (
            PacketHead {
                codec: Codec::C8E,
                count: 1,
            },
            "8e010000016b412cee000100000000000000000000000000000000010005000100010100010011001d00010010015e2c880002000b000000003544c87a000e000000001dd7e06a000001",
        ),
        (
            PacketHead {
                codec: Codec::C16,
                count: 2,
            },
            "10020000016bdbc7833000000000000000000000000000000000000b05040200010000030002000b00270042563a00000000016bdbc7871800000000000000000000000000000000000b05040200010000030002000b00260042563a000002",
        ),
        (
            PacketHead {
                codec: Codec::C8,
                count: 1,
            },
            "08010000016b4f815b30010000000000000000000000000000000103021503010101425dbc000001",
        ),
    ]
}

fn packet_lines() -> &'static str {
    "\
{\"codec\":8,\"count\":1,\"item\":\"packet\",\"line\":1}
{\"altitude\":0,\"angle\":0,\"event\":1,\"generation\":null,\"io\":[[21,1,3],[1,1,1],[66,2,24079],[241,4,24602],[78,8,0]],\"item\":\"record\",\"latitude\":0,\"line\":1,\"longitude\":0,\"nx\":[],\"priority\":1,\"satellites\":0,\"speed\":0,\"time\":1560161086000}
{\"codec\":142,\"count\":1,\"item\":\"packet\",\"line\":1}
{\"altitude\":0,\"angle\":0,\"event\":1,\"generation\":null,\"io\":[[1,1,1],[17,2,29],[16,4,22949000],[11,8,893700218],[14,8,500686954]],\"item\":\"record\",\"latitude\":0,\"line\":1,\"longitude\":0,\"nx\":[],\"priority\":1,\"satellites\":0,\"speed\":0,\"time\":1560166592000}
{\"codec\":16,\"count\":2,\"item\":\"packet\",\"line\":1}
{\"altitude\":0,\"angle\":0,\"event\":11,\"generation\":5,\"io\":[[1,1,0],[3,1,0],[11,2,39],[66,2,22074]],\"item\":\"record\",\"latitude\":0,\"line\":1,\"longitude\":0,\"nx\":[],\"priority\":0,\"satellites\":0,\"speed\":0,\"time\":1562760414000}
{\"altitude\":0,\"angle\":0,\"event\":11,\"generation\":5,\"io\":[[1,1,0],[3,1,0],[11,2,38],[66,2,22074]],\"item\":\"record\",\"latitude\":0,\"line\":1,\"longitude\":0,\"nx\":[],\"priority\":0,\"satellites\":0,\"speed\":0,\"time\":1562760415000}
{\"codec\":8,\"count\":1,\"item\":\"packet\",\"line\":1}
{\"altitude\":0,\"angle\":0,\"event\":1,\"generation\":null,\"io\":[[21,1,3],[1,1,1],[66,2,23996]],\"item\":\"record\",\"latitude\":0,\"line\":1,\"longitude\":0,\"nx\":[],\"priority\":1,\"satellites\":0,\"speed\":0,\"time\":1560407006000}
"
}

#[test]
fn packets_take_a_line_and_one_a_record(rt: HostRuntime) -> Result<(), Fail> {
    let mut out = Vec::new(rt.alloc());
    for (head, digits) in &bodies() {
        let body = hex::decode(rt.alloc(), *digits)?;
        push_packet_lines(&mut out, *head, &body, 1)?;
    }
    assert_eq!(rt; out.as_slice(), packet_lines().as_bytes());
    Ok(())
}

/// A record of Codec 8 Extended south of the equator, west of Greenwich and below the sea, with two elements of any length.
fn far_record() -> &'static str {
    "0000000000000001020000000affffffff800100ff09ffff0000000200000000000000000002000100020a1bffff0000"
}

fn far_line() -> &'static str {
    "\
{\"altitude\":-32767,\"angle\":255,\"event\":0,\"generation\":null,\"io\":[],\"item\":\"record\",\"latitude\":-1,\"line\":7,\"longitude\":10,\"nx\":[[1,\"0a1b\"],[65535,\"\"]],\"priority\":2,\"satellites\":9,\"speed\":65535,\"time\":1}
"
}

#[test]
fn record_has_negative_numbers_and_long_elements(rt: HostRuntime) -> Result<(), Fail> {
    let mut out = Vec::new(rt.alloc());
    let bytes = hex::decode(rt.alloc(), far_record())?;
    push_record_line(&mut out, Codec::C8E, &bytes, 7)?;
    assert_eq!(rt; out.as_slice(), far_line().as_bytes());
    Ok(())
}
