use crate::{StreamDoor, StreamLink};
use doors::Door;
use links::Link;
use std::net::{TcpListener, TcpStream};
use std::test::Fail;
use std::time::Duration;

/// Both ends in one thread: a connection waits in the listener, and what is sent waits in the system.
#[test]
fn bytes_go_both_ways_over_loopback(rt: HostRuntime) -> Result<(), Fail> {
    let listener = TcpListener::bind(&rt, "127.0.0.1:0")?;
    let address = listener.local_addr()?;
    let mut door = StreamDoor::new(listener, rt.stderr(), Duration::from_secs(20));
    let mut device = StreamLink::new(TcpStream::connect(&rt, address)?, None);
    let mut server = door.accept().ok().expect(&rt, "a link");
    let mut piece = [0u8; 8];
    assert_eq!(rt; device.write(b"abc").ok(), Some(3));
    assert_eq!(rt; server.read(&mut piece).ok(), Some(3));
    assert_eq!(rt; piece[..3], *b"abc".as_slice());
    assert_eq!(rt; server.write(b"z").ok(), Some(1));
    assert_eq!(rt; device.read(&mut piece).ok(), Some(1));
    door.done(server);
    assert_eq!(rt; device.read(&mut piece).ok(), Some(0));
    assert_eq!(rt; (door.faults(), door.link_faults()), (0, 0));
    Ok(())
}

/// A peer that says nothing is given up, and its link counts.
#[test]
fn a_silent_peer_is_given_up(rt: HostRuntime) -> Result<(), Fail> {
    let listener = TcpListener::bind(&rt, "127.0.0.1:0")?;
    let address = listener.local_addr()?;
    let mut door = StreamDoor::new(listener, rt.stderr(), Duration::from_millis(20));
    let _peer = TcpStream::connect(&rt, address)?;
    let mut server = door.accept().ok().expect(&rt, "a link");
    assert!(rt; server.read(&mut [0u8; 8]).is_err());
    door.done(server);
    assert_eq!(rt; (door.faults(), door.link_faults()), (0, 1));
    Ok(())
}

/// A peer that left with bytes unread takes no more, and its link counts.
#[test]
fn a_peer_that_left_takes_no_bytes(rt: HostRuntime) -> Result<(), Fail> {
    let listener = TcpListener::bind(&rt, "127.0.0.1:0")?;
    let address = listener.local_addr()?;
    let mut door = StreamDoor::new(listener, rt.stderr(), Duration::from_secs(20));
    let peer = TcpStream::connect(&rt, address)?;
    let mut server = door.accept().ok().expect(&rt, "a link");
    assert_eq!(rt; server.write(b"a").ok(), Some(1));
    drop(peer);
    assert!(rt; server.write(b"b").is_err());
    door.done(server);
    assert_eq!(rt; (door.faults(), door.link_faults()), (0, 1));
    Ok(())
}

/// A listener that has no connection and doesn't wait for one: accepting fails, and the door counts.
#[test]
fn a_door_that_gives_no_link_counts(rt: HostRuntime) -> Result<(), Fail> {
    let listener = TcpListener::bind(&rt, "127.0.0.1:0")?;
    listener.set_nonblocking(true)?;
    let mut door = StreamDoor::new(listener, rt.stderr(), Duration::from_secs(20));
    assert!(rt; door.accept().is_err());
    assert_eq!(rt; (door.faults(), door.link_faults()), (1, 0));
    Ok(())
}
