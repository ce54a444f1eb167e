ghost use Rattle.std.specs.Prelude.{◌≡◌, ◌<◌, ◌≤◌, IfSome, length};
ghost use Rattle.tcp_edge.specs.Edge.{IsNoLess, untold};
ghost use Rattle.tcp_edge.specs.Later.{is_later, later_none, later_then};

use avl_values::Failed;
use links::Link;
use std::io::{ErrorKind, Read, Write};
use std::net::{OpenStream, SocketAddr};
use std::time::Duration;

/// A stream taken for a link. A read or a write that a signal interrupts is tried again; any other failure counts, and so does a read or
/// a write that waits longer than the stream allows.
#[derive(Drop)]
pub struct StreamLink<S> {
    stream: S,
    peer: Option<SocketAddr>,
    taken: u64,
    written: u64,
    faults: u64,
}

/// Has small answers go out at once, and a peer that is silent for so long given up: mobile links die without a word, and each would
/// hold its worker for ever. A stream that takes no such option is served all the same.
pub fn prepare<S: OpenStream>(stream: &S, silence: Duration) {
    let _ = stream.set_nodelay(true);
    let _ = stream.set_read_timeout(Some(silence));
    let _ = stream.set_write_timeout(Some(silence));
}

impl<S: Read + Write + Drop> StreamLink<S> {
    /// A link over a stream that was not used yet, to this peer where that is known.
    pub fn new(stream: S, peer: Option<SocketAddr>) -> StreamLink<S>
        ensures { result.faults ≡ 0 }
    {
        StreamLink {
            stream,
            peer,
            taken: 0,
            written: 0,
            faults: 0,
        }
    }

    /// The peer's address, where it is known.
    pub fn peer(&self) -> Option<SocketAddr> {
        self.peer
    }

    /// How many bytes were taken.
    pub fn taken(&self) -> u64 {
        self.taken
    }

    /// How many bytes were written.
    pub fn written(&self) -> u64 {
        self.written
    }
}

// Reads once, and again after a signal. None where it fails.
fn read_some<S: Read>(stream: &mut S, into: &mut [u8]) -> Option<usize>
    ensures { IfSome result (λ n. n ≤ length into.new) }
{
    for _ in 0..u64::MAX {
        match stream.read(into) {
            Ok(count) => return Some(count),
            Err(e) => {
                if e.kind() != ErrorKind::Interrupted {
                    return None;
                }
            }
        }
    }
    None
}

// Writes once, and again after a signal. None where it fails, or takes nothing of a piece that isn't empty.
fn write_some<S: Write>(stream: &mut S, from: &[u8]) -> Option<usize>
    ensures bound { IfSome result (λ n. n ≤ length from.now) }
    ensures some { 0 < length from.now → IfSome result (λ n. 0 < n) }
{
    for _ in 0..u64::MAX {
        match stream.write(from) {
            Ok(count) => {
                if count == 0 && !from.is_empty() {
                    return None;
                }
                return Some(count);
            }
            Err(e) => {
                if e.kind() != ErrorKind::Interrupted {
                    return None;
                }
            }
        }
    }
    None
}

impl<S: Read + Write + Drop> Link for StreamLink<S> {
    ghost state = { λ l. untold l.faults };

    ghost follows = { λ a b. IsNoLess a.faults b.faults };

    fn faults(&self) -> u64 {
        self.faults
    }

    fn read(&mut self, into: &mut [u8]) -> Result<usize, Failed> {
        match read_some(&mut self.stream, into) {
            Some(count) => {
                self.taken = self.taken.saturating_add(count as u64);
                Ok(count)
            }
            None => {
                self.faults = self.faults.saturating_add(1);
                Err(Failed)
            }
        }
    }

    fn write(&mut self, from: &[u8]) -> Result<usize, Failed> {
        match write_some(&mut self.stream, from) {
            Some(count) => {
                self.written = self.written.saturating_add(count as u64);
                Ok(count)
            }
            None => {
                self.faults = self.faults.saturating_add(1);
                Err(Failed)
            }
        }
    }

    ghost follows_none = { λ l. later_none l.faults };

    ghost follows_then = { λ a b c. later_then a.faults b.faults c.faults };

    ghost follows_later = { λ a b. is_later a.faults b.faults };
}
