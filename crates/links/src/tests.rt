use crate::{Link, MemoryLink, send};

#[test]
fn three_bytes_in_pieces_of_two(rt: HostRuntime) {
    let mut link = MemoryLink::new(rt.alloc(), b"abc", 2, 0, &[]).expect(&rt, "a link");
    let mut piece = [0u8; 8];
    for (count, front) in [(2, "ab"), (1, "cb"), (0, "cb"), (0, "cb")] {
        assert_eq!(rt; link.read(&mut piece).ok(), Some(count));
        assert_eq!(rt; &piece[..2], front.as_bytes());
    }
    assert_eq!(rt; link.faults(), 0);
}

/// Reads and writes are numbered together: calls 1 and 3 are chosen to fail, and 5 would pass the room of three bytes.
#[test]
fn calls_fail_where_they_were_chosen(rt: HostRuntime) {
    let mut link = MemoryLink::new(rt.alloc(), b"abcdef", 4, 3, &[1, 3]).expect(&rt, "a link");
    let mut piece = [0u8; 8];
    assert_eq!(rt; link.read(&mut piece).ok(), Some(4));
    assert_eq!(rt; link.write(b"x").ok(), None);
    assert_eq!(rt; link.read(&mut piece).ok(), Some(2));
    assert_eq!(rt; link.read(&mut piece).ok(), None);
    assert_eq!(rt; link.write(b"xy").ok(), Some(2));
    assert_eq!(rt; link.write(b"zw").ok(), None);
    assert_eq!(rt; link.faults(), 3);
    assert_eq!(rt; send(&mut link, b"z").ok(), Some(()));
    assert_eq!(rt; link.written(), b"xyz".as_slice());
    assert_eq!(rt; send(&mut link, b"z").ok(), None);
    assert_eq!(rt; link.read(&mut piece).ok(), Some(0));
    assert_eq!(rt; link.faults(), 4);
    assert_eq!(rt; piece.as_slice(), b"efcd\0\0\0\0".as_slice());
}
