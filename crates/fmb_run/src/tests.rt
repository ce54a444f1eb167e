ghost use Rattle.std.specs.Prelude.{IfOk};
ghost use Rattle.fmb_host.specs.Host.{AreSmall};

use crate::run;
use avl_values::NoMemory;
use fmb_host::{Host, MemoryHost};
use fmb_trial::run_trial;
use std::alloc::Global;
use std::sync::Wait;
use std::thread::Threads;
use text_streams::{MemorySink, MemorySource};
use trial_model::{DeviceEnd, Outcome, ServerEnd};

fn first_round() -> &'static str {
    "\
device 356307042441013 8 16 oldest 1000 0 0 0 known
fix 356307042441013 1560161086000 0 0 0 0 0 0 0
fix 356307042441013 1560161087000 0 0 0 0 0 0 0
fix 356307042441013 1560161088000 0 0 0 0 0 0 0
round 356307042441013 7 - -
"
}

fn report() -> &'static str {
    "\
device 356307042441013 acquired 3 cut 0 overwritten 0 flash 0 archived 3
acquired 356307042441013 8 0000016b40d8ea3000000000000000000000000000000000000000000000
acquired 356307042441013 8 0000016b40d8ee1800000000000000000000000000000000000000000000
acquired 356307042441013 8 0000016b40d8f20000000000000000000000000000000000000000000000
archived 356307042441013 8 0000016b40d8ea3000000000000000000000000000000000000000000000
archived 356307042441013 8 0000016b40d8ee1800000000000000000000000000000000000000000000
archived 356307042441013 8 0000016b40d8f20000000000000000000000000000000000000000000000
connection 1 356307042441013 device done 3 server ended up 122 122 down 5 5
"
}

fn brief_report() -> &'static str {
    "\
device 356307042441013 acquired 3 cut 0 overwritten 0 flash 0 archived 3
connections 1
"
}

fn repeated_fix() -> &'static str {
    "\
device 356307042441013 8 16 oldest 1000 0 0 0 known
fix 356307042441013 1560161086000 0 0 0 0 0 0 0
fix 356307042441013 1560161087000 0 0 0 0 0 0 0
fix 356307042441013 1560161086000 0 0 0 0 0 0 0
round 356307042441013 7 - -
"
}

fn repeated_fix_report() -> &'static str {
    "\
device 356307042441013 acquired 2 cut 0 overwritten 0 flash 0 archived 2
acquired 356307042441013 8 0000016b40d8ea3000000000000000000000000000000000000000000000
acquired 356307042441013 8 0000016b40d8ee1800000000000000000000000000000000000000000000
archived 356307042441013 8 0000016b40d8ea3000000000000000000000000000000000000000000000
archived 356307042441013 8 0000016b40d8ee1800000000000000000000000000000000000000000000
connection 1 356307042441013 device done 3 server ended up 122 122 down 5 5
"
}

fn device_line() -> &'static str {
    "device 356307042441013 8 16 oldest 1000 0 0 0 known\n"
}

fn one_fix() -> &'static str {
    "\
device 356307042441013 8 16 oldest 1000 0 0 0 known
fix 356307042441013 1560161086000 0 0 0 0 0 0 0
"
}

fn one_fix_report() -> &'static str {
    "\
device 356307042441013 acquired 1 cut 0 overwritten 0 flash 1 archived 0
acquired 356307042441013 8 0000016b40d8ea3000000000000000000000000000000000000000000000
flash 356307042441013 8 0000016b40d8ea3000000000000000000000000000000000000000000000
"
}

fn with_power() -> &'static str {
    "\
device 356307042441013 8 16 oldest 1000 0 0 0 known
power 356307042441013
"
}

fn two_rounds() -> &'static str {
    "\
device 356307042441013 8 16 oldest 1000 0 0 0 known
fix 356307042441013 1560161086000 0 0 0 0 0 0 0
round 356307042441013 7 - -
round 356307042441013 7 - -
"
}

fn two_rounds_report() -> &'static str {
    "\
device 356307042441013 acquired 1 cut 0 overwritten 0 flash 0 archived 1
acquired 356307042441013 8 0000016b40d8ea3000000000000000000000000000000000000000000000
archived 356307042441013 8 0000016b40d8ea3000000000000000000000000000000000000000000000
connection 1 356307042441013 device done 1 server ended up 62 62 down 5 5
connection 2 356307042441013 device empty server ended up 0 0 down 0 0
"
}

fn empty_report() -> &'static str {
    "device 356307042441013 acquired 0 cut 0 overwritten 0 flash 0 archived 0\n"
}

/// Teltonika's frame of one Codec 8 record.
fn one_record() -> &'static str {
    "\
frames 000000000000003608010000016B40D8EA30010000000000000000000000000000000105021503010101425E0F01F10000601A014E0000000000000000010000C7CF
"
}

fn one_record_shown() -> &'static str {
    "\
{\"codec\":8,\"count\":1,\"item\":\"packet\",\"line\":1}
{\"altitude\":0,\"angle\":0,\"event\":1,\"generation\":null,\"io\":[[21,1,3],[1,1,1],[66,2,24079],[241,4,24602],[78,8,0]],\"item\":\"record\",\"latitude\":0,\"line\":1,\"longitude\":0,\"nx\":[],\"priority\":1,\"satellites\":0,\"speed\":0,\"time\":1560161086000}
"
}

/// Teltonika's frame of one Codec 8 Extended record.
fn extended_record() -> &'static str {
    "\
frames 000000000000004A8E010000016B412CEE000100000000000000000000000000000000010005000100010100010011001D00010010015E2C880002000B000000003544C87A000E000000001DD7E06A00000100002994
"
}

fn extended_record_shown() -> &'static str {
    "\
{\"codec\":142,\"count\":1,\"item\":\"packet\",\"line\":1}
{\"altitude\":0,\"angle\":0,\"event\":1,\"generation\":null,\"io\":[[1,1,1],[17,2,29],[16,4,22949000],[11,8,893700218],[14,8,500686954]],\"item\":\"record\",\"latitude\":0,\"line\":1,\"longitude\":0,\"nx\":[],\"priority\":1,\"satellites\":0,\"speed\":0,\"time\":1560166592000}
"
}

/// Teltonika's frame of two Codec 16 records.
fn two_records() -> &'static str {
    "\
frames 000000000000005F10020000016BDBC7833000000000000000000000000000000000000B05040200010000030002000B00270042563A00000000016BDBC7871800000000000000000000000000000000000B05040200010000030002000B00260042563A00000200005FB3
"
}

fn two_records_shown() -> &'static str {
    "\
{\"codec\":16,\"count\":2,\"item\":\"packet\",\"line\":1}
{\"altitude\":0,\"angle\":0,\"event\":11,\"generation\":5,\"io\":[[1,1,0],[3,1,0],[11,2,39],[66,2,22074]],\"item\":\"record\",\"latitude\":0,\"line\":1,\"longitude\":0,\"nx\":[],\"priority\":0,\"satellites\":0,\"speed\":0,\"time\":1562760414000}
{\"altitude\":0,\"angle\":0,\"event\":11,\"generation\":5,\"io\":[[1,1,0],[3,1,0],[11,2,38],[66,2,22074]],\"item\":\"record\",\"latitude\":0,\"line\":1,\"longitude\":0,\"nx\":[],\"priority\":0,\"satellites\":0,\"speed\":0,\"time\":1562760415000}
"
}

/// Teltonika's command `getinfo` of Codec 12.
fn command() -> &'static str {
    "answers 000000000000000F0C010500000007676574696E666F0100004312\n"
}

fn command_shown() -> &'static str {
    "\
{\"codec\":12,\"imei\":null,\"item\":\"command\",\"kind\":5,\"line\":1,\"text\":\"676574696e666f\",\"time\":null}
"
}

/// Teltonika's command `getver` of Codec 14.
fn device_command() -> &'static str {
    "\
answers 00000000000000160E01050000000E0352093081452251676574766572010000D2C1
"
}

fn device_command_shown() -> &'static str {
    "\
{\"codec\":14,\"imei\":\"352093081452251\",\"item\":\"command\",\"kind\":5,\"line\":1,\"text\":\"676574766572\",\"time\":null}
"
}

/// Teltonika's datagram and its reply.
fn datagram_and_reply() -> &'static str {
    "\
udp 003DCAFE0105000F33353230393330383634303336353508010000016B4F815B30010000000000000000000000000000000103021503010101425DBC000001
reply 0005CAFE010501
"
}

fn datagram_and_reply_shown() -> &'static str {
    "\
{\"avl_packet\":5,\"imei\":\"352093086403655\",\"item\":\"datagram\",\"line\":1,\"packet\":51966,\"unused\":1}
{\"codec\":8,\"count\":1,\"item\":\"packet\",\"line\":1}
{\"altitude\":0,\"angle\":0,\"event\":1,\"generation\":null,\"io\":[[21,1,3],[1,1,1],[66,2,23996]],\"item\":\"record\",\"latitude\":0,\"line\":1,\"longitude\":0,\"nx\":[],\"priority\":1,\"satellites\":0,\"speed\":0,\"time\":1560407006000}
{\"avl_packet\":5,\"count\":1,\"item\":\"reply\",\"line\":2,\"packet\":51966,\"unused\":1}
"
}

/// The frame of one record with another checksum.
fn other_checksum() -> &'static str {
    "\
frames 000000000000003608010000016B40D8EA30010000000000000000000000000000000105021503010101425E0F01F10000601A014E0000000000000000010000C7CE
"
}

/// The frame of one record with a checksum above 65,535.
fn high_checksum() -> &'static str {
    "\
frames 000000000000003608010000016B40D8EA30010000000000000000000000000000000105021503010101425E0F01F10000601A014E0000000000000000010001C7CF
"
}

/// The frame of one record with a total of 4 elements.
fn other_total() -> &'static str {
    "\
frames 000000000000003608010000016B40D8EA30010000000000000000000000000000000104021503010101425E0F01F10000601A014E0000000000000000010000C7CF
"
}

/// A login whose last digit is a letter.
fn lettered_login() -> &'static str {
    "up 000F333536333037303432343431303141\n"
}

/// The frame of one record, and a login of 16 digits.
fn record_and_fault() -> &'static str {
    "\
frames 000000000000003608010000016B40D8EA30010000000000000000000000000000000105021503010101425E0F01F10000601A014E0000000000000000010000C7CF
up 0010
"
}

fn record_and_fault_shown() -> &'static str {
    "\
{\"codec\":8,\"count\":1,\"item\":\"packet\",\"line\":1}
{\"altitude\":0,\"angle\":0,\"event\":1,\"generation\":null,\"io\":[[21,1,3],[1,1,1],[66,2,24079],[241,4,24602],[78,8,0]],\"item\":\"record\",\"latitude\":0,\"line\":1,\"longitude\":0,\"nx\":[],\"priority\":1,\"satellites\":0,\"speed\":0,\"time\":1560161086000}
{\"fault\":\"LoginLength\",\"item\":\"fault\",\"line\":2,\"number\":11,\"place\":0}
"
}

fn other_checksum_shown() -> &'static str {
    "\
{\"fault\":\"CrcMismatch\",\"item\":\"fault\",\"line\":1,\"number\":10,\"place\":64}
"
}

fn high_checksum_shown() -> &'static str {
    "\
{\"fault\":\"CrcHigh\",\"item\":\"fault\",\"line\":1,\"number\":9,\"place\":62}
"
}

fn other_total_shown() -> &'static str {
    "\
{\"fault\":\"TotalMismatch\",\"item\":\"fault\",\"line\":1,\"number\":4,\"place\":51}
"
}

fn lettered_login_shown() -> &'static str {
    "\
{\"fault\":\"LoginDigit\",\"item\":\"fault\",\"line\":1,\"number\":12,\"place\":16}
"
}

fn long_login_shown() -> &'static str {
    "\
{\"fault\":\"LoginLength\",\"item\":\"fault\",\"line\":1,\"number\":11,\"place\":0}
"
}

fn no_preamble_shown() -> &'static str {
    "\
{\"fault\":\"Preamble\",\"item\":\"fault\",\"line\":1,\"number\":7,\"place\":0}
"
}

fn other_answer_shown() -> &'static str {
    "{\"byte\":2,\"item\":\"answer\",\"line\":1}\n"
}

/// What the host has after a run.
#[derive(Drop)]
struct Answer {
    status: u8,
    printed: Vec<u8>,
    is_kept: bool,
    back: usize,
}

fn host_of(
    alloc: Global,
    script: &str,
    opens: &[u64],
    reads: &[u64],
    writes: &[u64],
    room: usize,
) -> Result<MemoryHost, NoMemory>
    ensures { IfOk result (λ host. AreSmall host.counts) }
{
    let source = MemorySource::new(alloc, script.as_bytes(), reads)?;
    let sink = MemorySink::new(alloc, room, writes)?;
    let mut host = MemoryHost::new(alloc, sink, opens)?;
    host.add_text(source)?;
    Ok(host)
}

fn words_of(alloc: Global, line: &str) -> Result<Vec<String>, NoMemory> {
    let mut words = Vec::new(alloc);
    for word in line.split_whitespace() {
        words.push(String::from_str(alloc, word)?)?;
    }
    Ok(words)
}

fn answer_of(alloc: Global, status: u8, host: &MemoryHost) -> Result<Answer, NoMemory> {
    Ok(Answer {
        status,
        printed: Vec::from_slice(alloc, host.sink().written())?,
        is_kept: host.outcome().is_some(),
        back: host.texts_back().len(),
    })
}

fn run_on<R: Threads + Wait + Sync>(
    rt: &R,
    alloc: Global,
    line: &str,
    mut host: MemoryHost,
) -> Result<Answer, NoMemory>
    requires { AreSmall host.counts }
{
    let words = words_of(alloc, line)?;
    let status = run(rt, alloc, words.as_slice(), &mut host);
    answer_of(alloc, status, &host)
}

fn run_with<R: Threads + Wait + Sync>(
    rt: &R,
    alloc: Global,
    opens: &[u64],
    reads: &[u64],
    writes: &[u64],
    room: usize,
) -> Result<Answer, NoMemory> {
    let host = host_of(alloc, first_round(), opens, reads, writes, room)?;
    run_on(rt, alloc, "trial first_round.fmb", host)
}

fn show_with<R: Threads + Wait + Sync>(
    rt: &R,
    alloc: Global,
    capture: &str,
    reads: &[u64],
    writes: &[u64],
    room: usize,
) -> Result<Answer, NoMemory> {
    let host = host_of(alloc, capture, &[], reads, writes, room)?;
    run_on(rt, alloc, "show capture", host)
}

fn run_line<R: Threads + Wait + Sync>(
    rt: &R,
    alloc: Global,
    line: &str,
    script: &str,
) -> Result<Answer, NoMemory> {
    let host = host_of(alloc, script, &[], &[], &[], 1_000)?;
    run_on(rt, alloc, line, host)
}

#[test]
fn each_failing_call_has_its_status(rt: HostRuntime) {
    let none: &[u64] = &[];
    let first: &[u64] = &[0];
    let second: &[u64] = &[1];
    let third: &[u64] = &[2];
    let cases = [
        (none, none, none, 1_000, 0, report()),
        (first, none, none, 1_000, 7, "host fault\n"),
        (second, none, none, 1_000, 0, report()),
        (none, first, none, 1_000, 4, "source fault\n"),
        (none, second, none, 1_000, 4, "source fault\n"),
        (none, third, none, 1_000, 0, report()),
        (none, none, first, 1_000, 5, ""),
        (none, none, second, 1_000, 0, report()),
        (none, none, none, 6, 5, "device"),
        (first, none, none, 4, 7, "host"),
        (none, second, first, 1_000, 4, ""),
    ];
    for (opens, reads, writes, room, status, printed) in cases {
        let answer = run_with(&rt, rt.alloc(), opens, reads, writes, room).expect(&rt, "memory");
        assert_eq!(rt; answer.status, status);
        assert_eq!(rt; answer.printed.as_slice(), printed.as_bytes());
        assert_eq!(rt; answer.is_kept, status == 0 || status == 5);
        assert_eq!(rt; answer.back, if status == 7 { 0 } else { 1 });
    }
}

#[test]
fn scripts_and_words_are_answered_as_written_down(rt: HostRuntime) {
    let cases = [
        ("trial first", "", 0, ""),
        ("trial first", device_line(), 0, empty_report()),
        ("trial first", repeated_fix(), 0, repeated_fix_report()),
        ("trial first", one_fix(), 0, one_fix_report()),
        ("trial first", with_power(), 0, empty_report()),
        ("trial first", two_rounds(), 0, two_rounds_report()),
        ("trial first --brief", first_round(), 0, brief_report()),
        ("trial first", "fixx", 3, "refused line 1 UnknownWord\n"),
        ("", first_round(), 2, "refused words\n"),
        ("sho", first_round(), 2, "refused words\n"),
        ("trial", first_round(), 2, "refused words\n"),
        ("trial first second", first_round(), 2, "refused words\n"),
        ("made 1 2", first_round(), 2, "refused words\n"),
        ("made 1 65 100", first_round(), 2, "refused words\n"),
        (
            "serve address archive --workers 1",
            first_round(),
            2,
            "refused words\n",
        ),
    ];
    for (line, script, status, printed) in cases {
        let answer = run_line(&rt, rt.alloc(), line, script).expect(&rt, "memory");
        assert_eq!(rt; answer.status, status, "{line}");
        assert_eq!(rt; answer.printed.as_slice(), printed.as_bytes());
    }
}

/// What goes up: the login, then one frame of three records without elements at these times, all else in them zero.
fn sent_up(alloc: Global, times: [u64; 3], checksum: [u8; 2]) -> Result<Vec<u8>, NoMemory> {
    let mut up = Vec::new(alloc);
    up.extend_from_slice(b"\x00\x0f356307042441013")?;
    up.extend_from_slice(&[0, 0, 0, 0, 0, 0, 0, 93, 8, 3])?;
    for time in times {
        up.extend_from_slice(&time.to_be_bytes())?;
        up.extend_from_slice(&[0; 22])?;
    }
    up.extend_from_slice(&[3, 0, 0])?;
    up.extend_from_slice(&checksum)?;
    Ok(up)
}

/// Whether one connection was made, sent these bytes up, and ended well both ways with three records counted.
fn is_counted(outcome: &Outcome, up: &[u8]) -> bool {
    if outcome.connections() != 1 {
        return false;
    }
    let connection = outcome.connection_at(0);
    connection.up.as_slice() == up
        && connection.up_given == 122
        && connection.down.as_slice() == [1, 0, 0, 0, 3].as_slice()
        && connection.down_given == 5
        && connection.device == DeviceEnd::Done(3)
        && connection.server == ServerEnd::Ended
}

/// Plays the script; whether its outcome has this one connection.
fn plays(alloc: Global, script: &str, up: &[u8]) -> Result<bool, NoMemory> {
    let mut host = host_of(alloc, script, &[], &[], &[], 1_000)?;
    let _status = run_trial(alloc, &mut host, "script", true);
    Ok(
        host.outcome()
            .is_some_and(|outcome| is_counted(outcome, up)),
    )
}

#[test]
fn one_frame_goes_up_and_is_counted(rt: HostRuntime) {
    let last = 0x16b_40d8_f200;
    let cases = [
        (first_round(), last, [0x68, 0x3b]),
        (repeated_fix(), 0x16b_40d8_ea30, [0x49, 0x91]),
    ];
    for (script, third, checksum) in cases {
        let times = [0x16b_40d8_ea30, 0x16b_40d8_ee18, third];
        let up = sent_up(rt.alloc(), times, checksum).expect(&rt, "memory");
        assert!(rt; plays(rt.alloc(), script, &up).expect(&rt, "memory"));
    }
}

#[test]
fn captures_are_shown_as_written_down(rt: HostRuntime) {
    let cases = [
        (one_record(), 0, one_record_shown()),
        (extended_record(), 0, extended_record_shown()),
        (two_records(), 0, two_records_shown()),
        (command(), 0, command_shown()),
        (device_command(), 0, device_command_shown()),
        (datagram_and_reply(), 0, datagram_and_reply_shown()),
        ("down 02", 0, other_answer_shown()),
        (other_checksum(), 3, other_checksum_shown()),
        (high_checksum(), 3, high_checksum_shown()),
        (other_total(), 3, other_total_shown()),
        (lettered_login(), 3, lettered_login_shown()),
        ("up 0010", 3, long_login_shown()),
        ("frames FF000000", 3, no_preamble_shown()),
        (record_and_fault(), 3, record_and_fault_shown()),
        ("up 0", 3, "refused line 1 BadHex\n"),
    ];
    for (capture, status, printed) in cases {
        let answer = run_line(&rt, rt.alloc(), "show capture", capture).expect(&rt, "memory");
        assert_eq!(rt; answer.status, status, "{capture}");
        assert_eq!(rt; answer.printed.as_slice(), printed.as_bytes());
        assert!(rt; !answer.is_kept, "show keeps nothing");
        assert_eq!(rt; answer.back, 1);
    }
}

#[test]
fn a_capture_that_cant_be_opened_and_a_report_that_cant_be_printed(rt: HostRuntime) {
    let cases: [(&str, &[u64], &[u64], u8, &str); 2] = [
        ("show capture", &[0], &[], 7, "host fault\n"),
        ("made 1 1 1", &[], &[0], 5, ""),
    ];
    for (line, opens, writes, status, printed) in cases {
        let host = host_of(rt.alloc(), one_record(), opens, &[], writes, 1_000).expect(
            &rt, "memory",
        );
        let answer = run_on(&rt, rt.alloc(), line, host).expect(&rt, "memory");
        assert_eq!(rt; answer.status, status);
        assert_eq!(rt; answer.printed.as_slice(), printed.as_bytes());
    }
}

#[test]
fn fault_of_a_capture_decides_before_the_sink(rt: HostRuntime) {
    let none: &[u64] = &[];
    let first: &[u64] = &[0];
    let second: &[u64] = &[1];
    let cases = [
        (record_and_fault(), none, first, 1_000, 3, ""),
        (record_and_fault(), none, none, 8, 3, "{\"codec\""),
        (one_record(), none, first, 1_000, 5, ""),
        (one_record(), none, none, 8, 5, "{\"codec\""),
        (one_record(), first, first, 1_000, 4, ""),
        (one_record(), second, none, 1_000, 4, "source fault\n"),
        (one_record(), none, second, 1_000, 0, one_record_shown()),
    ];
    for (capture, reads, writes, room, status, printed) in cases {
        let answer = show_with(&rt, rt.alloc(), capture, reads, writes, room).expect(&rt, "memory");
        assert_eq!(rt; answer.status, status);
        assert_eq!(rt; answer.printed.as_slice(), printed.as_bytes());
    }
}
