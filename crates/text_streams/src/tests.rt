use crate::{MemorySink, MemorySource, Sink, Source};

#[test]
fn ample_memory_is_enough(rt: HostRuntime) {
    let mut text = MemorySource::new(rt.alloc(), b"abcde", &[1]).expect(&rt, "a source");
    let mut sink = MemorySink::new(rt.alloc(), 4, &[]).expect(&rt, "a sink");
    let mut piece = [0u8; 3];
    for (count, left) in [
        (Some(3), "abc"),
        (None, "abc"),
        (Some(2), "dec"),
        (Some(0), "dec"),
    ] {
        assert_eq!(rt; text.read(&mut piece).ok(), count);
        assert_eq!(rt; piece.as_slice(), left.as_bytes());
    }
    assert_eq!(rt; sink.write(b"hello").ok(), Some(4));
    assert!(rt; sink.write(b"o").is_err(), "no room is left");
    assert_eq!(rt; sink.written(), b"hell".as_slice());
}
