use crate::{Door, MemoryDoor};
use links::{Link, MemoryLink};

/// Accepts a link, reads from it, and gives it back: what it read, or None where the accept or the read failed.
fn reads(door: &mut MemoryDoor) -> Option<(usize, u8)> {
    let mut link = door.accept().ok()?;
    let mut piece = [0u8; 4];
    let count = link.read(&mut piece).ok();
    if door.link_faults() < 9 {
        door.done(link);
    }
    Some((count?, piece[0]))
}

/// Two links, the second of which fails at once: the first accept is chosen to fail, the fourth finds no link.
#[test]
fn links_in_order_and_failures(rt: HostRuntime) {
    let alloc = rt.alloc();
    let first = MemoryLink::new(alloc, b"a", 1, 0, &[]).expect(&rt, "a link");
    let second = MemoryLink::new(alloc, b"b", 1, 0, &[0]).expect(&rt, "a link");
    let links = vec![in alloc; first, second].expect(&rt, "two links");
    let mut door = MemoryDoor::new(alloc, links, &[0]).expect(&rt, "a door");
    for wanted in [None, Some((1, b'a')), None, None] {
        assert_eq!(rt; reads(&mut door), wanted);
    }
    assert_eq!(rt; door.faults(), 2);
    assert_eq!(rt; door.link_faults(), 1);
    assert_eq!(rt; door.ended().len(), 2);
}
