use crate::hosts::{host_with, run_line};
use std::alloc::Global;
use std::sync::Wait;
use std::thread::Threads;

// What is printed of the trial of a made script, and the status.
fn printed<R: Threads + Wait + Sync>(rt: &R, alloc: Global, line: &str) -> Option<(Vec<u8>, u8)> {
    let mut host = host_with(alloc, b"")?;
    let status = run_line(rt, alloc, &mut host, line)?;
    let text = Vec::from_slice(alloc, host.sink().written()).ok()?;
    Some((text, status))
}

// Whether these words are in the line.
fn has(line: &[u8], words: &[u8]) -> bool {
    !words.is_empty() && line.windows(words.len()).any(|part| part == words)
}

#[test]
fn made_trial_is_the_same_again(rt: HostRuntime) {
    let (text, status) = printed(&rt, rt.alloc(), "made 1 2 100").expect(&rt, "memory");
    assert_eq!(rt; status, 0);
    let mut lines = text.as_slice().split(|b| *b == b'\n');
    for imei in ["350000000000001", "350000000000002"] {
        let line = lines.next().expect(&rt, "a device");
        assert!(rt; line.starts_with(b"device "));
        assert!(rt; has(line, imei.as_bytes()));
        assert!(rt; has(line, b" flash 0 archived "));
    }
    assert!(rt;
        lines
            .next()
            .expect(&rt, "connections")
            .starts_with(b"connections ")
    );
    assert_eq!(rt; lines.next(), Some(b"".as_slice()), "that is all");
    let (again, _) = printed(&rt, rt.alloc(), "made 1 2 100").expect(&rt, "memory");
    assert_eq!(rt; again.as_slice(), text.as_slice());
}
