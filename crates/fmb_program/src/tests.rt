use crate::file::FileText;
use crate::output::Output;
use crate::system::System;
use fmb_host::{Counts, Host};
use text_streams::{Sink, Source};

#[test]
fn adapters_count_their_failures(rt: HostRuntime) {
    let mut text = FileText::new(b"abc".as_slice());
    let mut piece = [0u8; 2];
    for count in [2, 1, 0] {
        assert_eq!(rt; text.read(&mut piece).ok(), Some(count));
    }
    assert_eq!(rt; text.faults(), 0);
    let mut room = [0u8; 2];
    let mut out = Output::new(room.as_mut_slice());
    assert_eq!(rt; out.write(b"abc").ok(), Some(2));
    assert_eq!(rt; out.write(b"").ok(), Some(0));
    assert_eq!(rt; out.faults(), 0);
    assert_eq!(rt;
        out.write(b"c").ok(),
        None,
        "a write of nothing is a failure"
    );
    assert_eq!(rt; out.faults(), 1);
}

#[test]
fn system_counts_files_that_fail(rt: HostRuntime) {
    let out = Output::new(rt.stdout());
    let mut host = System::new(rt.clone().expect(&rt, "a runtime"), out);
    assert!(rt; host.open_text("no such file").is_err(), "it isn't there");
    let mut folder = host.open_text(".").expect(&rt, "a folder can be opened");
    assert!(rt; folder.read(&mut [0u8; 4]).is_err(), "and not be read");
    host.text_back(folder);
    let counts = Counts {
        host: 1,
        texts: 1,
        media: 0,
        doors: 0,
    };
    assert_eq!(rt; host.counts(), counts);
}
