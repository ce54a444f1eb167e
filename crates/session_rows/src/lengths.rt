//! The longest frame, and a session without end.
use crate::serving::{LOGIN, joined, over_nothing, serve_alone};
use avl_values::Failed;
use crc_field::crc;
use frame_channel::Link;
use session_core::{Known, NoOrders, SessionEnd, serve_link};
use std::alloc::{AllocError, Global};
use std::test::Fail;

// The frame of a body.
fn framed(alloc: Global, body: &[u8]) -> Result<Vec<u8>, AllocError> {
    let length = (body.len() % 65_536) as u16;
    let mut frame = Vec::new(alloc);
    frame.extend_from_slice(&[0; 6])?;
    frame.extend_from_slice(&length.to_be_bytes())?;
    frame.extend_from_slice(body)?;
    frame.extend_from_slice(&[0; 2])?;
    frame.extend_from_slice(&crc(body).to_be_bytes())?;
    Ok(frame)
}

// A record of Codec 8 Extended of 255 bytes, with one element of variable length of 213 bytes.
fn push_record(body: &mut Vec<u8>, time: u8) -> Result<(), AllocError> {
    body.extend_from_slice(&[0; 7])?;
    body.push(time)?;
    body.extend_from_slice(&[0; 16])?;
    body.extend_from_slice(&[0, 0, 0, 1, 0, 0, 0, 0, 0, 0, 0, 0, 0, 1, 0, 7, 0, 213])?;
    body.extend_from_slice(&[0; 213])
}

// A body of 255 such records, each with a time of its own.
fn long_body(alloc: Global) -> Result<Vec<u8>, AllocError> {
    let mut body = Vec::new(alloc);
    body.extend_from_slice(&[0x8e, 255])?;
    for time in 0..255 {
        push_record(&mut body, time)?;
    }
    body.push(255)?;
    Ok(body)
}

// How a session of one frame of 255 records of 255 bytes ended, and what it counted.
fn long_session(alloc: Global) -> Option<(SessionEnd, u64, u64)> {
    let mut stream = joined(alloc, &[LOGIN])?;
    let body = long_body(alloc).ok()?;
    stream.extend_from_slice(&framed(alloc, &body).ok()?).ok()?;
    let written = joined(alloc, &["01000000ff"])?;
    let served = serve_alone(alloc, &Known::All, &stream, 4_096, &written)?;
    Some((served.end, served.frames, served.records))
}

#[test]
fn the_longest_frame_is_counted(rt: HostRuntime) -> Result<(), Fail> {
    assert!(rt; long_session(rt.alloc()) == Some((SessionEnd::Ended, 1, 255)));
    Ok(())
}

/// A link that gives a login, and then one frame again and again. It tells none of its bytes.
#[derive(Drop)]
struct Endless {
    login: Vec<u8>,
    frame: Vec<u8>,
    logged_in: bool,
    at: usize,
    written: usize,
}

// The bytes from a place on, or all from the end on.
fn rest(bytes: &[u8], at: usize) -> &[u8] {
    if at < bytes.len() {
        &bytes[at..]
    } else {
        bytes
    }
}

impl Link for Endless {
    ghost use Rattle.std.specs.Prelude.{None, false};
    ghost use Rattle.links.proofs.Moving.{later_none};

    ghost state = { λ _. record { told = None; ended = false; faults = 0 } };

    ghost follows = { λ _ _. Unit {0} };

    fn faults(&self) -> u64 {
        0
    }

    fn read(&mut self, into: &mut [u8]) -> Result<usize, Failed> {
        let bytes = if self.logged_in {
            rest(&self.frame, self.at)
        } else {
            rest(&self.login, self.at)
        };
        let count = bytes.len().min(into.len());
        into[..count].copy_from_slice(&bytes[..count]);
        if count == bytes.len() {
            self.logged_in = true;
            self.at = 0;
        } else {
            self.at = self.at.saturating_add(count);
        }
        Ok(count)
    }

    fn write(&mut self, from: &[u8]) -> Result<usize, Failed> {
        self.written = self.written.saturating_add(from.len());
        Ok(from.len())
    }

    ghost follows_none = { λ _. tt };

    ghost follows_then = { λ _ _ _ _ _. tt };

    ghost follows_later = { λ _ _ _. later_none record { told = None; ended = false; faults = 0 } };
}

// The frame of a response of Codec 12 whose body has 65,535 bytes.
fn response(alloc: Global) -> Option<Vec<u8>> {
    let mut body = vec![in alloc; b'a'; 65_535].ok()?;
    body[..7].copy_from_slice(&[0x0c, 1, 6, 0, 0, 0xff, 0xf7]);
    body[65_534] = 1;
    framed(alloc, &body).ok()
}

// How a session without end ended, and how many bytes it wrote.
fn without_end(alloc: Global) -> Option<(SessionEnd, usize)> {
    let mut link = Endless {
        login: joined(alloc, &[LOGIN])?,
        frame: response(alloc)?,
        logged_in: false,
        at: 0,
        written: 0,
    };
    let mut shelf = over_nothing(alloc, 4)?;
    let served = serve_link(alloc, &mut link, &mut shelf, &Known::All, &mut NoOrders);
    Some((served.end, link.written))
}

#[test]
fn a_session_without_end_is_long_enough(rt: HostRuntime) -> Result<(), Fail> {
    let enough = SessionEnd::LongEnough {
        taken: 1_073_741_824,
    };
    assert!(rt; without_end(rt.alloc()) == Some((enough, 1)));
    Ok(())
}
