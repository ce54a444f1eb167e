//! A server and a device against each other over this machine's own network, each a whole run of the program.
ghost use Rattle.std.specs.Prelude.{◌≤◌, length};

use crate::output::Output;
use crate::system::System;
use fmb_run::run;
use std::alloc::Global;
use std::net::TcpListener;
use std::sync::Wait;
use std::test::Fail;
use std::thread::{Threads, join, yield_now};
use std::{fs, io};

/// Three fixes that make a record each, and a round.
const SCRIPT: &[u8] = b"device 356307042441013 8 16 oldest 1000 0 0 0 known
fix 356307042441013 1560161086000 0 0 0 0 0 0 0
fix 356307042441013 1560161087000 0 0 0 0 0 0 0
fix 356307042441013 1560161088000 0 0 0 0 0 0 0
round 356307042441013 7 - -
";

/// A status, and what was printed, with zeros after it.
type Ran = (u8, [u8; 100]);

fn words_of(alloc: Global, line: &str) -> Option<Vec<String>> {
    let mut words = Vec::new(alloc);
    for word in line.split_whitespace() {
        words.push(String::from_str(alloc, word).ok()?).ok()?;
    }
    Some(words)
}

// A run of the program with these words, on a host of its own.
fn ran<R: Threads + Wait + Sync>(rt: &R, own: HostRuntime, line: &str) -> Option<Ran> {
    let mut printed = [0; 100];
    let alloc = own.alloc();
    let words = words_of(alloc, line)?;
    let mut host = System::new(own, Output::new(printed.as_mut_slice()));
    let status = run(rt, alloc, words.as_slice(), &mut host);
    drop(host);
    Some((status, printed))
}

// Whether somebody listens at this port of this machine. It makes no connection, which the server would take for a device.
fn is_heard(rt: &HostRuntime, port: u16) -> io::Result<bool> {
    let table = fs::read_to_string(rt, "/proc/net/tcp")?;
    let wanted = format!(in rt.alloc(); "0100007F:{port:04X} 00000000:0000 0A")?;
    Ok(table.as_str().contains(wanted.as_str()))
}

// The same, once somebody listens at the port.
fn ran_against<R: Threads + Wait + Sync>(
    rt: &R,
    own: HostRuntime,
    port: u16,
    line: &str,
) -> Option<Ran> {
    for _ in 0..1_000_000 {
        if is_heard(&own, port).ok()? {
            return ran(rt, own, line);
        }
        yield_now();
    }
    None
}

fn printed(text: &[u8]) -> [u8; 100]
    requires { length text.now ≤ 100 }
{
    let mut bytes = [0; 100];
    bytes[..text.len()].copy_from_slice(text);
    bytes
}

#[test]
fn a_device_is_driven_against_a_server(rt: HostRuntime) -> Result<(), Fail> {
    fs::write(&rt, "script.fmb", SCRIPT)?;
    let port = TcpListener::bind(&rt, "127.0.0.1:0")?.local_addr()?.port();
    let serve = format!(in rt.alloc(); "serve 127.0.0.1:{port} archive --workers 1 --sessions 1")?;
    let drive = format!(in rt.alloc(); "drive 127.0.0.1:{port} flash script.fmb")?;
    let (server, device) = (rt.clone()?, rt.clone()?);
    let (served, driven) = join(
        &rt,
        || ran(&rt, server, serve.as_str()),
        || ran_against(&rt, device, port, drive.as_str()),
    );
    let said = printed(b"session 1 1 356307042441013 ended\narchive records 3 devices 1\n");
    assert!(rt; served == Some((0, said)));
    assert!(rt; driven == Some((0, printed(b"round 5 done 3\nflash 0\n"))));
    Ok(())
}
