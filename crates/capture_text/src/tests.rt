use crate::Capture;
use avl_values::NoMemory;
use std::alloc::Global;
use std::test::Fail;

/// A capture's lines as text, `NUMBER WORD BYTE ..;` each, or the text of its refusal.
fn told(alloc: Global, text: &str) -> Result<String, NoMemory> {
    let capture = match Capture::new(text.as_bytes()) {
        Ok(capture) => capture,
        Err(refusal) => return Ok(format!(in alloc; "{refusal}")?),
    };
    let mut told = String::new(alloc);
    let mut bytes = Vec::new(alloc);
    for line in capture {
        line.decode(&mut bytes)?;
        let (number, word) = (line.number(), line.word().name());
        told.push_str(format!(in alloc; "{number} {word}")?.as_str())?;
        for byte in &bytes {
            told.push_str(format!(in alloc; " {byte}")?.as_str())?;
        }
        told.push_str(";")?;
    }
    Ok(told)
}

fn long_text(alloc: Global, length: usize) -> Result<String, NoMemory> {
    let bytes = vec![in alloc; b'#'; length]?;
    Ok(String::from_utf8_lossy(alloc, &bytes)?)
}

#[test]
fn reads_lines(rt: HostRuntime) -> Result<(), Fail> {
    for (text, lines) in [
        ("", ""),
        ("up 01ff", "1 up 1 255;"),
        ("up 01ff\n", "1 up 1 255;"),
        ("up 01FF\r\ndown aB\r\n", "1 up 1 255;2 down 171;"),
        ("up ", "1 up;"),
        (
            "# a word\n\n\r\nframes 00\nanswers 01\n#\nudp 02\nreply 03",
            "4 frames 0;5 answers 1;7 udp 2;8 reply 3;",
        ),
        ("up", "line 1 BadHex"),
        ("up 0", "line 1 BadHex"),
        ("up 0g", "line 1 BadHex"),
        ("up  00", "line 1 BadHex"),
        ("up 00 ", "line 1 BadHex"),
        ("up 00\r", "line 1 BadHex"),
        (" ", "line 1 UnknownWord"),
        (" 00", "line 1 UnknownWord"),
        ("Up 00", "line 1 UnknownWord"),
        ("up\t00", "line 1 UnknownWord"),
        ("up 00\n\nuq 0", "line 3 UnknownWord"),
        ("up 00\nup 0\nuq 0", "line 2 BadHex"),
    ] {
        let got = told(rt.alloc(), text)?;
        assert_eq!(rt; got.as_str(), lines);
    }
    Ok(())
}

#[test]
fn refuses_a_long_text(rt: HostRuntime) -> Result<(), Fail> {
    let longest = long_text(rt.alloc(), 0x100_0000)?;
    assert_eq!(rt; told(rt.alloc(), longest.as_str())?.as_str(), "");
    let too_long = long_text(rt.alloc(), 0x100_0001)?;
    assert_eq!(rt;
        told(rt.alloc(), too_long.as_str())?.as_str(),
        "line 0 TextTooLong"
    );
    Ok(())
}
