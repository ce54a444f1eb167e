use crate::hosts::{host_with, run_line};
use fmb_host::{Host, MemoryHost};
use std::alloc::Global;
use std::sync::Wait;
use std::thread::Threads;

/// A device of Codec 8 with 16 slots, which the server knows. Its period is a second.
const DEVICE: &str = "device 356307042441013 8 16 oldest 1000 0 0 0 known\n";

/// The same with two slots.
const TWO_SLOTS: &str = "device 356307042441013 8 2 oldest 1000 0 0 0 known\n";

/// Three fixes one second apart.
const FIX_0: &str = "fix 356307042441013 1560161086000 0 0 0 0 0 0 0\n";

const FIX_1: &str = "fix 356307042441013 1560161087000 0 0 0 0 0 0 0\n";

const FIX_2: &str = "fix 356307042441013 1560161088000 0 0 0 0 0 0 0\n";

/// A round that is delivered whole.
const ROUND: &str = "round 356307042441013 64 - -\n";

/// The lines of the records of these fixes.
const ACQUIRED_0: &str =
    "acquired 356307042441013 8 0000016b40d8ea3000000000000000000000000000000000000000000000\n";

const ACQUIRED_1: &str =
    "acquired 356307042441013 8 0000016b40d8ee1800000000000000000000000000000000000000000000\n";

const ACQUIRED_2: &str =
    "acquired 356307042441013 8 0000016b40d8f20000000000000000000000000000000000000000000000\n";

const CUT_0: &str =
    "cut 356307042441013 8 0000016b40d8ea3000000000000000000000000000000000000000000000\n";

const OVERWRITTEN_0: &str =
    "overwritten 356307042441013 8 0000016b40d8ea3000000000000000000000000000000000000000000000\n";

const FLASH_0: &str =
    "flash 356307042441013 8 0000016b40d8ea3000000000000000000000000000000000000000000000\n";

const FLASH_1: &str =
    "flash 356307042441013 8 0000016b40d8ee1800000000000000000000000000000000000000000000\n";

const FLASH_2: &str =
    "flash 356307042441013 8 0000016b40d8f20000000000000000000000000000000000000000000000\n";

const ARCHIVED_0: &str =
    "archived 356307042441013 8 0000016b40d8ea3000000000000000000000000000000000000000000000\n";

const ARCHIVED_1: &str =
    "archived 356307042441013 8 0000016b40d8ee1800000000000000000000000000000000000000000000\n";

const ARCHIVED_2: &str =
    "archived 356307042441013 8 0000016b40d8f20000000000000000000000000000000000000000000000\n";

/// The line of a device whose one record is archived.
const ONE_ARCHIVED: &str =
    "device 356307042441013 acquired 1 cut 0 overwritten 0 flash 0 archived 1\n";

/// The line of a device whose one record is on flash.
const ONE_ON_FLASH: &str =
    "device 356307042441013 acquired 1 cut 0 overwritten 0 flash 1 archived 0\n";

/// The line of a second connection, which brings one record.
const SECOND_DONE: &str =
    "connection 2 356307042441013 device done 1 server ended up 62 62 down 5 5\n";

/// A script and its report, each in parts.
type Row<'a> = (&'a [&'a str], &'a [&'a str]);

// The parts, joined.
fn joined(alloc: Global, parts: &[&str]) -> Option<Vec<u8>> {
    let mut all = Vec::new(alloc);
    for part in parts {
        all.extend_from_slice(part.as_bytes()).ok()?;
    }
    Some(all)
}

// How many `device` lines a script's parts have.
fn devices(script: &[&str]) -> usize {
    script
        .iter()
        .filter(|part| part.starts_with("device "))
        .count()
}

// Whether the text went back, and where there was a trial, a bench for the server and one for each device, and an outcome is kept.
fn is_returned(host: &MemoryHost, script: &[&str], is_played: bool) -> bool {
    let benches = host.benches_back().len();
    let is_back = if is_played {
        benches.checked_sub(1) == Some(devices(script))
    } else {
        benches == 0
    };
    is_back && host.texts_back().len() == 1 && host.outcome().is_some() == is_played
}

// Whether a script is answered by its report, and with this status.
fn is_answered<R: Threads + Wait + Sync>(
    rt: &R,
    alloc: Global,
    line: &str,
    status: u8,
    row: &Row<'_>,
) -> Option<bool> {
    let text = joined(alloc, row.0)?;
    let printed = joined(alloc, row.1)?;
    let mut host = host_with(alloc, text.as_slice())?;
    let got = run_line(rt, alloc, &mut host, line)?;
    Some(
        got == status
            && host.sink().written() == printed.as_slice()
            && is_returned(&host, row.0, status == 0),
    )
}

// How many rows are answered as they are written down, up to the first that isn't.
fn answered<R: Threads + Wait + Sync>(
    rt: &R,
    alloc: Global,
    line: &str,
    status: u8,
    rows: &[Row<'_>],
) -> usize {
    for i in 0..rows.len() {
        if is_answered(rt, alloc, line, status, &rows[i]) != Some(true) {
            return i;
        }
    }
    rows.len()
}

#[test]
fn whole_rounds_bring_what_is_held(rt: HostRuntime) {
    let rows: &[Row<'_>] = &[
        // nothing, and a device alone
        (&[], &[]),
        (
            &[DEVICE],
            &["device 356307042441013 acquired 0 cut 0 overwritten 0 flash 0 archived 0\n"],
        ),
        (
            &[DEVICE, ROUND],
            &[
                "device 356307042441013 acquired 0 cut 0 overwritten 0 flash 0 archived 0\n",
                "connection 1 356307042441013 device empty server ended up 0 0 down 0 0\n",
            ],
        ),
        // three records are brought in one packet
        (
            &[DEVICE, FIX_0, FIX_1, FIX_2, "round 356307042441013 7 - -\n"],
            &[
                "device 356307042441013 acquired 3 cut 0 overwritten 0 flash 0 archived 3\n",
                ACQUIRED_0,
                ACQUIRED_1,
                ACQUIRED_2,
                ARCHIVED_0,
                ARCHIVED_1,
                ARCHIVED_2,
                "connection 1 356307042441013 device done 3 server ended up 122 122 down 5 5\n",
            ],
        ),
        // equal records are one in the archive
        (
            &[DEVICE, FIX_0, FIX_1, FIX_0, "round 356307042441013 7 - -\n"],
            &[
                "device 356307042441013 acquired 2 cut 0 overwritten 0 flash 0 archived 2\n",
                ACQUIRED_0,
                ACQUIRED_1,
                ARCHIVED_0,
                ARCHIVED_1,
                "connection 1 356307042441013 device done 3 server ended up 122 122 down 5 5\n",
            ],
        ),
    ];
    let count = answered(&rt, rt.alloc(), "trial script", 0, rows);
    assert_eq!(rt; count, rows.len());
}

#[test]
fn brief_report_has_counts_alone(rt: HostRuntime) {
    let rows: &[Row<'_>] = &[
        (&[], &["connections 0\n"]),
        (
            &[DEVICE, FIX_0, FIX_1, FIX_2, "round 356307042441013 7 - -\n"],
            &[
                "device 356307042441013 acquired 3 cut 0 overwritten 0 flash 0 archived 3\n",
                "connections 1\n",
            ],
        ),
    ];
    let count = answered(&rt, rt.alloc(), "trial script --brief", 0, rows);
    assert_eq!(rt; count, rows.len());
}

#[test]
fn broken_rounds_lose_nothing(rt: HostRuntime) {
    let rows: &[Row<'_>] = &[
        // the count is cut, and its records are sent again
        (
            &[DEVICE, FIX_0, "round 356307042441013 64 - 4\n", ROUND],
            &[
                ONE_ARCHIVED,
                ACQUIRED_0,
                ARCHIVED_0,
                "connection 1 356307042441013 device broken server ended up 62 62 down 5 4\n",
                SECOND_DONE,
            ],
        ),
        // the rest of a packet comes late, after its records were sent again
        (
            &[
                DEVICE,
                FIX_0,
                "round 356307042441013 64 30 -\n",
                ROUND,
                "late 1 -\n",
            ],
            &[
                ONE_ARCHIVED,
                ACQUIRED_0,
                ARCHIVED_0,
                "connection 1 356307042441013 device broken server ended up 62 62 down 5 1\n",
                SECOND_DONE,
            ],
        ),
        // it comes late in part, and then the server sees the end
        (
            &[
                DEVICE,
                FIX_0,
                "round 356307042441013 64 40 -\n",
                "late 1 5\n",
                "close 1\n",
            ],
            &[
                ONE_ON_FLASH,
                ACQUIRED_0,
                FLASH_0,
                "connection 1 356307042441013 device broken server inside 28 up 62 45 down 1 1\n",
            ],
        ),
        // the server restarts while it waits for the rest
        (
            &[
                DEVICE,
                FIX_0,
                "round 356307042441013 64 40 -\n",
                "power server\n",
            ],
            &[
                ONE_ON_FLASH,
                ACQUIRED_0,
                FLASH_0,
                "connection 1 356307042441013 device broken server restart up 62 40 down 1 1\n",
            ],
        ),
        // a stranger
        (
            &[
                "device 356307042441013 8 16 oldest 1000 0 0 0 stranger\n",
                FIX_0,
                ROUND,
            ],
            &[
                ONE_ON_FLASH,
                ACQUIRED_0,
                FLASH_0,
                "connection 1 356307042441013 device refused server unknown up 17 17 down 1 1\n",
            ],
        ),
    ];
    let count = answered(&rt, rt.alloc(), "trial script", 0, rows);
    assert_eq!(rt; count, rows.len());
}

#[test]
fn full_ring_lists_what_it_overwrites(rt: HostRuntime) {
    let rows: &[Row<'_>] = &[
        // a ring of two slots overwrites
        (
            &[TWO_SLOTS, FIX_0, FIX_1, FIX_2],
            &[
                "device 356307042441013 acquired 3 cut 0 overwritten 1 flash 2 archived 0\n",
                ACQUIRED_0,
                ACQUIRED_1,
                ACQUIRED_2,
                OVERWRITTEN_0,
                FLASH_1,
                FLASH_2,
            ],
        ),
        (
            &[TWO_SLOTS, FIX_0, FIX_1, FIX_2, "drain 356307042441013 64\n"],
            &[
                "device 356307042441013 acquired 3 cut 0 overwritten 1 flash 0 archived 2\n",
                ACQUIRED_0,
                ACQUIRED_1,
                ACQUIRED_2,
                OVERWRITTEN_0,
                ARCHIVED_1,
                ARCHIVED_2,
                "connection 1 356307042441013 device done 2 server ended up 92 92 down 5 5\n",
            ],
        ),
        // a power-up forgets the last fix, and the equal record is listed once
        (
            &[TWO_SLOTS, FIX_0, FIX_0, "power 356307042441013\n", FIX_0],
            &[ONE_ON_FLASH, ACQUIRED_0, FLASH_0],
        ),
    ];
    let count = answered(&rt, rt.alloc(), "trial script", 0, rows);
    assert_eq!(rt; count, rows.len());
}

#[test]
fn server_that_dies_counts_again(rt: HostRuntime) {
    let rows: &[Row<'_>] = &[
        // the server's power is lost before the packet is archived, after that, and after the answer
        (
            &[DEVICE, FIX_0, "fuse server 1 open\n", ROUND, ROUND],
            &[
                ONE_ARCHIVED,
                ACQUIRED_0,
                ARCHIVED_0,
                "connection 1 356307042441013 device broken server medium up 62 62 down 1 1\n",
                SECOND_DONE,
            ],
        ),
        (
            &[DEVICE, FIX_0, "fuse server 3 new\n", ROUND],
            &[
                "device 356307042441013 acquired 1 cut 0 overwritten 0 flash 1 archived 1\n",
                ACQUIRED_0,
                FLASH_0,
                ARCHIVED_0,
                "connection 1 356307042441013 device broken server medium up 62 62 down 1 1\n",
            ],
        ),
        (
            &[DEVICE, FIX_0, "fuse server 3 new\n", ROUND, ROUND],
            &[
                ONE_ARCHIVED,
                ACQUIRED_0,
                ARCHIVED_0,
                "connection 1 356307042441013 device broken server medium up 62 62 down 1 1\n",
                SECOND_DONE,
            ],
        ),
        (
            &[DEVICE, FIX_0, "fuse server 4 keep\n", ROUND],
            &[
                ONE_ARCHIVED,
                ACQUIRED_0,
                ARCHIVED_0,
                "connection 1 356307042441013 device done 1 server ended up 62 62 down 5 5\n",
            ],
        ),
    ];
    let count = answered(&rt, rt.alloc(), "trial script", 0, rows);
    assert_eq!(rt; count, rows.len());
}

#[test]
fn device_that_dies_lists_what_it_cut(rt: HostRuntime) {
    let rows: &[Row<'_>] = &[
        // the device's power is lost inside a store, after it, and while sent records are released
        (
            &[DEVICE, "fuse 356307042441013 2 keep\n", FIX_0],
            &[
                "device 356307042441013 acquired 1 cut 1 overwritten 0 flash 0 archived 0\n",
                ACQUIRED_0,
                CUT_0,
            ],
        ),
        (
            &[DEVICE, "fuse 356307042441013 2 new\n", FIX_0],
            &[
                "device 356307042441013 acquired 1 cut 1 overwritten 0 flash 1 archived 0\n",
                ACQUIRED_0,
                CUT_0,
                FLASH_0,
            ],
        ),
        (
            &[DEVICE, "fuse 356307042441013 4 keep\n", FIX_0],
            &[ONE_ON_FLASH, ACQUIRED_0, FLASH_0],
        ),
        (
            &[DEVICE, FIX_0, "fuse 356307042441013 0 keep\n", ROUND, ROUND],
            &[
                ONE_ARCHIVED,
                ACQUIRED_0,
                ARCHIVED_0,
                "connection 1 356307042441013 device medium server ended up 62 62 down 5 5\n",
                SECOND_DONE,
            ],
        ),
    ];
    let count = answered(&rt, rt.alloc(), "trial script", 0, rows);
    assert_eq!(rt; count, rows.len());
}

#[test]
fn settings_decide_what_is_acquired(rt: HostRuntime) {
    let rows: &[Row<'_>] = &[
        // a turn, of a vehicle that is fast enough
        (
            &[
                "device 356307042441013 16 16 oldest 0 0 10 0 known\n",
                "fix 356307042441013 1560161086000 0 0 0 359 5 50 0\n",
                "fix 356307042441013 1560161087000 0 0 0 1 5 50 0\n",
                "fix 356307042441013 1560161088000 0 0 0 9 5 50 0\n",
                "fix 356307042441013 1560161089000 0 0 0 30 5 4 0\n",
            ],
            &[
                "device 356307042441013 acquired 2 cut 0 overwritten 0 flash 2 archived 0\n",
                "acquired 356307042441013 16 0000016b40d8ea30000000000000000000000001670500320000070000000000\n",
                "acquired 356307042441013 16 0000016b40d8f200000000000000000000000000090500320000070000000000\n",
                "flash 356307042441013 16 0000016b40d8ea30000000000000000000000001670500320000070000000000\n",
                "flash 356307042441013 16 0000016b40d8f200000000000000000000000000090500320000070000000000\n",
            ],
        ),
        // the ignition changes
        (
            &[
                "device 356307042441013 8E 16 oldest 0 0 0 0 known\n",
                "io 356307042441013 239 1 change 0 0 1\n",
                "fix 356307042441013 1560161086000 0 0 0 0 0 0 0 0\n",
                "fix 356307042441013 1560161087000 0 0 0 0 0 0 0 1\n",
                "fix 356307042441013 1560161088000 0 0 0 0 0 0 0 1\n",
            ],
            &[
                "device 356307042441013 acquired 2 cut 0 overwritten 0 flash 2 archived 0\n",
                "acquired 356307042441013 8E 0000016b40d8ea300000000000000000000000000000000000000001000100ef000000000000000000\n",
                "acquired 356307042441013 8E 0000016b40d8ee180100000000000000000000000000000000ef0001000100ef010000000000000000\n",
                "flash 356307042441013 8E 0000016b40d8ea300000000000000000000000000000000000000001000100ef000000000000000000\n",
                "flash 356307042441013 8E 0000016b40d8ee180100000000000000000000000000000000ef0001000100ef010000000000000000\n",
            ],
        ),
    ];
    let count = answered(&rt, rt.alloc(), "trial script", 0, rows);
    assert_eq!(rt; count, rows.len());
}

#[test]
fn first_fault_is_printed(rt: HostRuntime) {
    let rows: &[Row<'_>] = &[
        (
            &[DEVICE, "fixx 356307042441013\n"],
            &["refused line 2 UnknownWord\n"],
        ),
        (&[FIX_0], &["refused line 1 NoDevice\n"]),
        (
            &["device 356307042441013 8 0 oldest 0 0 0 0 known\n"],
            &["refused line 1 BadNumber\n"],
        ),
        (&[DEVICE, "late 1 -\n"], &["refused line 2 NoConnection\n"]),
    ];
    let count = answered(&rt, rt.alloc(), "trial script", 3, rows);
    assert_eq!(rt; count, rows.len());
}

/// The first of 43 fixes one second apart.
const FIRST_TIME: u64 = 1_560_161_086_000;

// A device of 64 slots, 43 fixes and a round.
fn long_script(alloc: Global) -> Option<Vec<u8>> {
    let mut text = joined(
        alloc,
        &["device 356307042441013 8 64 oldest 1000 0 0 0 known\n"],
    )?;
    for second in 0..43u64 {
        let time = FIRST_TIME + 1_000 * second;
        let line = format!(in alloc; "fix 356307042441013 {time} 0 0 0 0 0 0 0\n").ok()?;
        text.extend_from_slice(line.as_bytes()).ok()?;
    }
    text.extend_from_slice(ROUND.as_bytes()).ok()?;
    Some(text)
}

#[test]
fn packet_takes_what_fits(rt: HostRuntime) {
    let text = long_script(rt.alloc()).expect(&rt, "memory");
    let mut host = host_with(rt.alloc(), text.as_slice()).expect(&rt, "memory");
    let status = run_line(&rt, rt.alloc(), &mut host, "trial script");
    assert_eq!(rt; status, Some(0));
    let printed = host.sink().written();
    assert!(rt;
        printed.starts_with(
            b"device 356307042441013 acquired 43 cut 0 overwritten 0 flash 1 archived 42\n"
        )
    );
    assert!(rt;
        printed.ends_with(
            b"\nconnection 1 356307042441013 device done 42 server ended up 1292 1292 down 5 5\n"
        )
    );
}
