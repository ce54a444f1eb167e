ghost use Rattle.std.specs.Prelude.{◌≡◌};
ghost use Rattle.tcp_edge.specs.Edge.{untold_door};

use crate::link::{StreamLink, prepare};
use avl_values::Failed;
use doors::Door;
use links::Link;
use std::io::{ErrorKind, Read, Write};
use std::net::{OpenListener, OpenStream};
use std::time::Duration;

/// A listener taken for a door. Each connection that ends is one line on `errors`: its peer, the bytes taken and written, and whether it
/// ended or failed.
#[derive(Drop)]
pub struct StreamDoor<L, E> {
    listener: L,
    errors: E,
    silence: Duration,
    faults: u64,
    link_faults: u64,
}

impl<L: OpenListener + Drop, E: Write + Drop> StreamDoor<L, E> {
    /// A door over a listener. A connection that is silent for so long is given up.
    pub fn new(listener: L, errors: E, silence: Duration) -> StreamDoor<L, E>
        ensures faults { result.faults ≡ 0 }
        ensures link_faults { result.link_faults ≡ 0 }
    {
        StreamDoor {
            listener,
            errors,
            silence,
            faults: 0,
            link_faults: 0,
        }
    }
}

// A connection that was given up before it was accepted is passed over. None where accepting fails.
fn accept_some<L: OpenListener>(listener: &L) -> Option<L::Stream> {
    for _ in 0..u64::MAX {
        match listener.accept() {
            Ok((stream, _)) => return Some(stream),
            Err(e) => {
                if e.kind() != ErrorKind::ConnectionAborted {
                    return None;
                }
            }
        }
    }
    None
}

// One line for a connection, written at once, so that lines of several workers don't mix. That it can't be written changes nothing.
fn note<S: Read + Write + Drop, E: Write>(errors: &mut E, link: &StreamLink<S>) {
    let mut line = [0u8; 160];
    let mut rest = line.as_mut_slice();
    let _ = match link.peer() {
        Some(peer) => write!(rest, "connection {peer}"),
        None => write!(rest, "connection unknown"),
    };
    let end = if link.faults() == 0 {
        "ended"
    } else {
        "failed"
    };
    let _ = write!(rest, " up {} down {} {end}\n", link.taken(), link.written());
    let left = rest.len().min(160);
    let _ = errors.write(&line[..160 - left]);
}

impl<L: OpenListener + Drop, E: Write + Drop> Door for StreamDoor<L, E>
where
    L::Stream: Read + Write + OpenStream + Drop,
{
    type L = StreamLink<L::Stream>;

    ghost state = { λ d. untold_door d.faults d.link_faults };

    fn faults(&self) -> u64 {
        self.faults
    }

    fn link_faults(&self) -> u64 {
        self.link_faults
    }

    fn accept(&mut self) -> Result<StreamLink<L::Stream>, Failed> {
        match accept_some(&self.listener) {
            Some(stream) => {
                prepare(&stream, self.silence);
                let peer = stream.peer_addr().ok();
                Ok(StreamLink::new(stream, peer))
            }
            None => {
                self.faults = self.faults.saturating_add(1);
                Err(Failed)
            }
        }
    }

    fn done(&mut self, link: StreamLink<L::Stream>) {
        note(&mut self.errors, &link);
        if link.faults() != 0 {
            self.link_faults += 1;
        }
    }
}
