ghost use Rattle.std.specs.Prelude.{◌≡◌, ◌<◌, ◌≤◌, IfOk, IfSome};
ghost use Rattle.doors.specs.MemoryDoors.{IsUnusedLink};
ghost use Rattle.fmb_host.specs.Host.{AreSmall, IsNewDoor};
ghost use Rattle.fmb_host.specs.Memory.{gate_state};

use doors::MemoryDoor;
use fmb_host::{Host, MemoryHost};
use fmb_run::run;
use hex::decode;
use links::MemoryLink;
use medium::MemoryMedium;
use std::alloc::Global;
use std::sync::Wait;
use std::thread::Threads;
use text_streams::MemorySink;

/// Teltonika's example of a login, of the device 356307042441013.
const LOGIN: &str = "000f333536333037303432343431303133";

/// A login of the device 352093081452251.
const OTHER_LOGIN: &str = "000f333532303933303831343532323531";

/// Teltonika's example of Codec 8, a frame of one record.
const CODEC_8: &str =
    "000000000000003608010000016b40d8ea30010000000000000000000000000000000105021503010101425e0f01f10000601a014e0000000000000000010000c7cf";

/// All of a record after its time, without elements.
const REST: &str = "00000000000000000000000000000000000000000000";

/// A login, and a frame of three records one second apart.
const THREE_RECORDS: &[&str] = &[
    LOGIN,
    "000000000000005d0803",
    "0000016b40d8ea30",
    REST,
    "0000016b40d8ee18",
    REST,
    "0000016b40d8f200",
    REST,
    "030000683b",
];

/// What a server is asked for, and what comes of it: the words, the archive's bytes in hex, the links of each worker's door with their
/// streams in hex, each in parts, the status and what is printed.
#[derive(Clone, Copy)]
struct Row<'a> {
    words: &'a str,
    archive: &'a str,
    doors: &'a [&'a [&'a [&'a str]]],
    status: u8,
    printed: &'a str,
}

// Bytes given in hex, joined.
fn joined(alloc: Global, parts: &[&str]) -> Option<Vec<u8>> {
    let mut all = Vec::new(alloc);
    for part in parts {
        let Ok(bytes) = decode(alloc, part.as_bytes()) else {
            return None;
        };
        all.extend_from_slice(&bytes).ok()?;
    }
    Some(all)
}

// A link that carries a stream in pieces of 7 bytes.
fn link(alloc: Global, parts: &[&str]) -> Option<MemoryLink>
    ensures { IfSome result IsUnusedLink }
{
    let bytes = joined(alloc, parts)?;
    match MemoryLink::new(alloc, &bytes, 7, 64, &[]) {
        Ok(link) => Some(link),
        Err(_) => None,
    }
}

// A door whose links carry these streams, one after the other.
fn door(alloc: Global, streams: &[&[&str]]) -> Option<MemoryDoor>
    ensures { IfSome result (λ d. IsNewDoor (gate_state d)) }
{
    let mut links = Vec::new(alloc);
    for stream in streams {
        links.push(link(alloc, stream)?).ok()?;
    }
    match MemoryDoor::new(alloc, links, &[]) {
        Ok(door) => Some(door),
        Err(_) => None,
    }
}

// A host with this archive and these doors.
fn host(alloc: Global, row: Row<'_>) -> Option<MemoryHost>
    ensures { IfSome result (λ host. AreSmall host.counts) }
{
    let sink = MemorySink::new(alloc, 1_000, &[]).ok()?;
    let mut host = MemoryHost::new(alloc, sink, &[]).ok()?;
    let Ok(bytes) = decode(alloc, row.archive.as_bytes()) else {
        return None;
    };
    host.add_medium(MemoryMedium::new(alloc, &bytes, &[]).ok()?)
        .ok()?;
    for streams in row.doors {
        host.add_door(door(alloc, streams)?).ok()?;
    }
    Some(host)
}

fn words_of(alloc: Global, line: &str) -> Option<Vec<String>> {
    let mut words = Vec::new(alloc);
    for word in line.split_whitespace() {
        words.push(String::from_str(alloc, word).ok()?).ok()?;
    }
    Some(words)
}

// Serves it, and gives the host back with the status.
fn served<R: Threads + Wait + Sync>(
    rt: &R,
    alloc: Global,
    row: Row<'_>,
) -> Option<(MemoryHost, u8)> {
    let mut host = host(alloc, row)?;
    let words = words_of(alloc, row.words)?;
    let status = run(rt, alloc, words.as_slice(), &mut host);
    Some((host, status))
}

#[test]
fn served_as_written_down(rt: HostRuntime) {
    let rows = [
        Row {
            words: "serve address archive --workers 1 --sessions 1",
            archive: "",
            doors: &[&[THREE_RECORDS]],
            status: 0,
            printed: "session 1 1 356307042441013 ended\narchive records 3 devices 1\n",
        },
        Row {
            words: "serve address archive --workers 1 --sessions 1",
            archive: "30313233343536373839",
            doors: &[],
            status: 8,
            printed: "refused archive\n",
        },
        Row {
            words: "serve address archive --workers 1 --sessions 2",
            archive: "",
            doors: &[&[&[LOGIN]]],
            status: 7,
            printed: "session 1 1 356307042441013 ended\narchive records 0 devices 0\n",
        },
        Row {
            words: "serve address archive --workers 2 --sessions 1",
            archive: "",
            doors: &[&[&[LOGIN, CODEC_8]], &[&[LOGIN, CODEC_8]]],
            status: 0,
            printed: "session 1 1 356307042441013 ended\nsession 2 1 356307042441013 ended\narchive records 1 devices 1\n",
        },
        Row {
            words: "serve address archive --workers 2 --sessions 1",
            archive: "",
            doors: &[&[&[LOGIN, CODEC_8]], &[&[OTHER_LOGIN, CODEC_8]]],
            status: 0,
            printed: "session 1 1 356307042441013 ended\nsession 2 1 352093081452251 ended\narchive records 2 devices 2\n",
        },
        Row {
            words: "serve address archive 352093081452251 --sessions 2 --workers 1",
            archive: "",
            doors: &[&[&[LOGIN], &[OTHER_LOGIN, CODEC_8]]],
            status: 0,
            printed: "session 1 1 356307042441013 unknown\nsession 1 2 352093081452251 ended\narchive records 1 devices 1\n",
        },
        Row {
            words: "serve address archive --workers 1 --sessions 1",
            archive: "",
            doors: &[&[&[]]],
            status: 0,
            printed: "session 1 1 - ended\narchive records 0 devices 0\n",
        },
        Row {
            words: "serve address archive --workers 1 --sessions 1",
            archive: "",
            doors: &[],
            status: 7,
            printed: "host fault\n",
        },
    ];
    for row in rows {
        let (host, status) = served(&rt, rt.alloc(), row).expect(&rt, "memory");
        assert_eq!(rt; status, row.status, "{}", row.printed);
        assert_eq!(rt; host.sink().written(), row.printed.as_bytes());
        assert_eq!(rt; host.media_back().len(), 1, "the archive went back");
        assert_eq!(rt; host.doors_back().len(), row.doors.len(), "the doors, too");
    }
}
