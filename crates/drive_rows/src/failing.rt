//! Drives of which one call fails, and a flash whose sequences are at their end.
ghost use Rattle.std.specs.Prelude.{◌≡◌, IfOk};
ghost use Rattle.fmb_host.specs.Host.{AreSmall};

use avl_values::NoMemory;
use fmb_drive::run_drive;
use fmb_host::{Host, MemoryHost};
use links::MemoryLink;
use medium::MemoryMedium;
use std::alloc::Global;
use text_streams::{MemorySink, MemorySource};

/// A drive and the calls of it that fail, by their numbers: the script, the flash, and the calls of the host, of the text, of the flash
/// and of the sink.
#[derive(Clone, Copy)]
struct Failing<'a> {
    script: &'a str,
    bytes: &'a [u8],
    host: &'a [u64],
    text: &'a [u64],
    flash: &'a [u64],
    sink: &'a [u64],
}

// Three records and a round over an empty flash, where nothing fails.
fn plain() -> Failing<'static> {
    Failing {
        script: "\
device 356307042441013 8 16 oldest 1000 0 0 0 known
fix 356307042441013 1560161086000 0 0 0 0 0 0 0
fix 356307042441013 1560161087000 0 0 0 0 0 0 0
fix 356307042441013 1560161088000 0 0 0 0 0 0 0
round 356307042441013 7 - -
",
        bytes: &[],
        host: &[],
        text: &[],
        flash: &[],
        sink: &[],
    }
}

// Two records over an empty flash of one slot.
fn one_slot() -> Failing<'static> {
    Failing {
        script: "\
device 356307042441013 8 1 oldest 1000 0 0 0 known
fix 356307042441013 1560161086000 0 0 0 0 0 0 0
fix 356307042441013 1560161087000 0 0 0 0 0 0 0
",
        bytes: &[],
        host: &[],
        text: &[],
        flash: &[],
        sink: &[],
    }
}

// A host with the script.
fn with_script(alloc: Global, failing: Failing<'_>) -> Result<MemoryHost, NoMemory>
    ensures { IfOk result (λ host. AreSmall host.counts) }
{
    let sink = MemorySink::new(alloc, 200, failing.sink)?;
    let text = MemorySource::new(alloc, failing.script.as_bytes(), failing.text)?;
    let mut host = MemoryHost::new(alloc, sink, failing.host)?;
    host.add_text(text)?;
    Ok(host)
}

fn add_flash(alloc: Global, host: &mut MemoryHost, failing: Failing<'_>) -> Result<(), NoMemory>
    ensures { host.new.counts ≡ host.old.counts }
{
    let medium = MemoryMedium::new(alloc, failing.bytes, failing.flash)?;
    host.add_medium(medium)
}

// A link that accepts the login and counts three records.
fn add_link(alloc: Global, host: &mut MemoryHost) -> Result<(), NoMemory>
    ensures { host.new.counts ≡ host.old.counts }
{
    let link = MemoryLink::new(alloc, b"\x01\x00\x00\x00\x03", 64, 1_000, &[])?;
    host.add_link(link)
}

// A host for the drive.
fn host_of(alloc: Global, failing: Failing<'_>) -> Result<MemoryHost, NoMemory>
    ensures { IfOk result (λ host. AreSmall host.counts) }
{
    let mut host = with_script(alloc, failing)?;
    add_flash(alloc, &mut host, failing)?;
    add_link(alloc, &mut host)?;
    Ok(host)
}

// Drives by it, and gives the host back with the status.
fn driven(alloc: Global, failing: Failing<'_>) -> Result<(MemoryHost, u8), NoMemory> {
    let mut host = host_of(alloc, failing)?;
    let status = run_drive(alloc, &mut host, "address", "flash", "script");
    Ok((host, status))
}

// Whether a host prints this, and has so many flashes back.
fn has(host: &MemoryHost, printed: &str, back: usize) -> bool {
    host.sink().written() == printed.as_bytes() && host.media_back().len() == back
}

// Whether a drive ends with this status, prints this, and gives so many flashes back.
fn ends(alloc: Global, failing: Failing<'_>, status: u8, printed: &str, back: usize) -> bool {
    match driven(alloc, failing) {
        Ok((host, ended)) => ended == status && has(&host, printed, back),
        Err(_) => false,
    }
}

// Whether nothing failed in the round.
fn ends_well(alloc: Global, failing: Failing<'_>) -> bool {
    ends(alloc, failing, 0, "round 5 done 3\nflash 0\n", 1)
}

fn host_fails(alloc: Global, call: u64, back: usize) -> bool {
    let failing = Failing {
        host: &[call],
        ..plain()
    };
    ends(alloc, failing, 7, "host fault\n", back)
}

fn text_fails(alloc: Global, call: u64) -> bool {
    let failing = Failing {
        text: &[call],
        ..plain()
    };
    ends(alloc, failing, 4, "source fault\n", 0)
}

fn flash_fails(alloc: Global, call: u64) -> bool {
    let failing = Failing {
        flash: &[call],
        ..plain()
    };
    ends(alloc, failing, 6, "medium fault\n", 1)
}

fn sink_fails(alloc: Global, call: u64, printed: &str) -> bool {
    let failing = Failing {
        sink: &[call],
        ..plain()
    };
    ends(alloc, failing, 5, printed, 1)
}

// Whether nothing fails in the round where these are the first calls of each that it doesn't make.
fn more_calls_pass(alloc: Global) -> bool {
    let failing = Failing {
        host: &[3],
        text: &[2],
        flash: &[52],
        sink: &[2],
        ..plain()
    };
    ends_well(alloc, failing)
}

// The text, the flash and the link; and two reads.
#[test]
fn each_open_and_each_read_fails_in_turn(rt: HostRuntime) {
    let alloc = rt.alloc();
    assert!(rt; host_fails(alloc, 0, 0));
    assert!(rt; host_fails(alloc, 1, 0));
    assert!(rt; host_fails(alloc, 2, 1));
    assert!(rt; text_fails(alloc, 0));
    assert!(rt; text_fails(alloc, 1));
    assert!(rt; more_calls_pass(alloc));
}

// Whether the sink fails on the line of the record that a full flash gives up.
fn lost_line_fails(alloc: Global) -> bool {
    let failing = Failing {
        sink: &[0],
        ..one_slot()
    };
    ends(alloc, failing, 5, "", 1)
}

#[test]
fn each_line_fails_in_turn(rt: HostRuntime) {
    let alloc = rt.alloc();
    assert!(rt; sink_fails(alloc, 0, ""));
    assert!(rt; sink_fails(alloc, 1, "round 5 done 3\n"));
    assert!(rt; lost_line_fails(alloc));
}

// Its length, 16 slots written and a sync; a sync, its length and 16 slots read; four calls for each of three records; and four to
// release them.
#[test]
fn each_call_of_an_empty_flash_fails_in_turn(rt: HostRuntime) {
    let alloc = rt.alloc();
    for call in 0..52u64 {
        assert!(rt; flash_fails(alloc, call), "{call}");
    }
}

// Whether a drive is refused where the first of 16 slots has a record and the sequence 2^63 - 1.
fn refuses_sequence(alloc: Global) -> bool {
    let mut flash = [0u8; 16 * 272];
    flash[..11].copy_from_slice(b"\xa5\x08\x1e\x7f\xff\xff\xff\xff\xff\xff\xff");
    let failing = Failing {
        bytes: &flash,
        ..plain()
    };
    ends(alloc, failing, 8, "refused flash sequence\n", 1)
}

#[test]
fn a_spent_sequence_is_refused(rt: HostRuntime) {
    assert!(rt; refuses_sequence(rt.alloc()));
}
