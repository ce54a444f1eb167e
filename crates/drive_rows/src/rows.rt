ghost use Rattle.std.specs.Prelude.{IfOk};
ghost use Rattle.fmb_host.specs.Host.{AreSmall};

use avl_values::NoMemory;
use fmb_drive::run_drive;
use fmb_host::{Host, MemoryHost};
use links::MemoryLink;
use medium::MemoryMedium;
use std::alloc::Global;
use text_streams::{MemorySink, MemorySource};

const DEVICE: &str = "device 356307042441013 8 16 oldest 1000 0 0 0 known\n";

/// The same device with a flash of one slot.
const ONE_SLOT: &str = "device 356307042441013 8 1 oldest 1000 0 0 0 known\n";

const FIX: &str = "fix 356307042441013 1560161086000 0 0 0 0 0 0 0\n";

/// One second later.
const NEXT_FIX: &str = "fix 356307042441013 1560161087000 0 0 0 0 0 0 0\n";

/// Two seconds later.
const THIRD_FIX: &str = "fix 356307042441013 1560161088000 0 0 0 0 0 0 0\n";

const ROUND: &str = "round 356307042441013 64 - -\n";

/// A drive and what comes of it: the script's lines, the flash, what each link gives, the status, and what is printed.
#[derive(Clone, Copy)]
struct Row<'a> {
    script: &'a [&'a str],
    flash: &'a [u8],
    links: &'a [&'a [u8]],
    status: u8,
    printed: &'a str,
}

// The lines of a script, joined.
fn joined(alloc: Global, lines: &[&str]) -> Result<String, NoMemory> {
    let mut text = String::new(alloc);
    for line in lines {
        text.push_str(line)?;
    }
    Ok(text)
}

// A host with this script and this flash.
fn host(alloc: Global, script: &str, flash: &[u8]) -> Result<MemoryHost, NoMemory>
    ensures { IfOk result (λ host. AreSmall host.counts) }
{
    let sink = MemorySink::new(alloc, 1_000, &[])?;
    let text = MemorySource::new(alloc, script.as_bytes(), &[])?;
    let medium = MemoryMedium::new(alloc, flash, &[])?;
    let mut host = MemoryHost::new(alloc, sink, &[])?;
    host.add_text(text)?;
    host.add_medium(medium)?;
    Ok(host)
}

// A host with this script, this flash and these links.
fn linked(alloc: Global, row: Row<'_>) -> Result<MemoryHost, NoMemory>
    ensures { IfOk result (λ host. AreSmall host.counts) }
{
    let script = joined(alloc, row.script)?;
    let mut host = host(alloc, script.as_str(), row.flash)?;
    for bytes in row.links {
        let link = MemoryLink::new(alloc, bytes, 64, 1_000, &[])?;
        host.add_link(link)?;
    }
    Ok(host)
}

// Drives by it, and gives the host back with the status.
fn driven(alloc: Global, row: Row<'_>) -> Result<(MemoryHost, u8), NoMemory> {
    let mut host = linked(alloc, row)?;
    let status = run_drive(alloc, &mut host, "address", "flash", "script");
    Ok((host, status))
}

#[test]
fn driven_as_written_down(rt: HostRuntime) {
    let mut slot_three = [0u8; 16 * 272];
    slot_three[3 * 272] = 0xA5;
    slot_three[3 * 272 + 1] = 0x07;
    let rows = [
        Row {
            script: &[DEVICE, FIX, NEXT_FIX, THIRD_FIX, ROUND],
            flash: b"",
            links: &[b"\x01\x00\x00\x00\x03"],
            status: 0,
            printed: "round 5 done 3\nflash 0\n",
        },
        Row {
            script: &[DEVICE],
            flash: &[0; 271],
            links: &[],
            status: 8,
            printed: "refused flash size 271 4352\n",
        },
        Row {
            script: &[DEVICE],
            flash: &slot_three,
            links: &[],
            status: 8,
            printed: "refused flash slot 3\n",
        },
        Row {
            script: &[DEVICE, FIX, ROUND],
            flash: b"",
            links: &[b"\x01\x00\x00\x00\x00"],
            status: 0,
            printed: "round 3 broken\nflash 1\n",
        },
        Row {
            script: &[ONE_SLOT, FIX, "power 356307042441013\n", NEXT_FIX],
            flash: b"",
            links: &[],
            status: 0,
            printed: "lost 356307042441013 8 0000016b40d8ea3000000000000000000000000000000000000000000000\nflash 1\n",
        },
        Row {
            script: &[DEVICE, FIX, "drain 356307042441013 64\n"],
            flash: b"",
            links: &[],
            status: 7,
            printed: "host fault\n",
        },
    ];
    for row in rows {
        let (host, status) = driven(rt.alloc(), row).expect(&rt, "memory");
        assert_eq!(rt; status, row.status, "{}", row.printed);
        assert_eq!(rt; host.sink().written(), row.printed.as_bytes());
        assert_eq!(rt; host.media_back().len(), 1, "the flash went back");
        assert_eq!(rt; host.links_back().len(), row.links.len(), "the links, too");
    }
}

// What is refused before the flash is opened, and a script without a device.
#[test]
fn nothing_is_opened_without_a_device(rt: HostRuntime) {
    let rows = [
        Row {
            script: &[DEVICE, FIX, ROUND, "close 1\n"],
            flash: b"",
            links: &[],
            status: 3,
            printed: "refused line 4 NotForDrive\n",
        },
        Row {
            script: &["# no device\n"],
            flash: b"",
            links: &[],
            status: 0,
            printed: "",
        },
    ];
    for row in rows {
        let (host, status) = driven(rt.alloc(), row).expect(&rt, "memory");
        assert_eq!(rt; status, row.status, "{}", row.printed);
        assert_eq!(rt; host.sink().written(), row.printed.as_bytes());
        assert_eq!(rt; host.media_back().len(), 0, "no flash was opened");
    }
}
