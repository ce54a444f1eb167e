use crate::{ScriptLine, drive_fault, read_script, write_script};
use avl_values::NoMemory;
use std::alloc::Global;
use std::test::Fail;

const DEVICE: &str = "device 356307042441013 8 16 oldest 1000 0 0 0 known\n";

/// The numbers of a script's lines, or its first fault, after a space each.
fn told(alloc: Global, text: &[u8]) -> Result<String, NoMemory> {
    let script = match read_script(alloc, text) {
        Ok(script) => script,
        Err(fault) => return Ok(format!(in alloc; " {fault}")?),
    };
    let mut told = String::new(alloc);
    for i in 0..script.len() {
        let number = script.number_at(i);
        told.push_str(format!(in alloc; " {number}")?.as_str())?;
    }
    Ok(told)
}

/// Texts, and what is told of them. `/` stands for LF, and `DEV` for the device's line.
const TEXTS: &str = "\
 =>
//# a word/ =>
  => line 1 UnknownWord
fix 356307042441013 0 0 0 0 0 0 0 0 => line 1 NoDevice
device 356307042441013 8 0 oldest 0 0 0 0 known => line 1 BadNumber
device 356307042441013 8 4097 oldest 0 0 0 0 known => line 1 BadNumber
device 35630704244101 8 0 oldest 0 0 0 0 known => line 1 BadImei
device server 8 1 oldest 0 0 0 0 known => line 1 BadImei
device 356307042441013 7 0 oldest 0 0 0 0 known => line 1 BadChoice
device 356307042441013 8 0 eldest 0 0 0 0 known => line 1 BadNumber
device 356307042441013 8E 9 newest 0 0 0 0 Known => line 1 BadChoice
device 356307042441013 16 9 newest 0 0 0 0 => line 1 FieldCount
devise 356307042441013 => line 1 UnknownWord
fuse server 1000001 open => line 1 BadNumber
fuse server 1 opened => line 1 BadChoice
close 1 => line 1 NoConnection
late 0 - => line 1 NoConnection
late 4294967296 x => line 1 BadNumber
power device => line 1 BadImei
power 356307042441013 => line 1 NoDevice
DEV/fixx 356307042441013 => line 2 UnknownWord
DEV/late 1 - => line 2 NoConnection
DEV/DEV => line 2 TwiceDevice
DEV/round 356307042441013 65536 - 0//late 1 5/close 1/close 2 => line 6 NoConnection
DEV/round 356307042441013 0 x - => line 2 BadNumber
DEV/round 356307042441013 1 - 4294967296 => line 2 BadNumber
DEV/drain 356307042441014 1 => line 2 NoDevice
DEV/fix 356307042441013 18446744073709551615 -2147483648 2147483647 -32768 65535 255 65535 18446744073709551615 => 1 2
DEV/fix 356307042441013 18446744073709551616 0 0 0 0 0 0 0 => line 2 BadNumber
DEV/fix 356307042441013 00 0 0 0 0 0 0 0 => line 2 BadNumber
DEV/fix 356307042441013 0 -0 0 0 0 0 0 0 => line 2 BadNumber
DEV/fix 356307042441013 0 - 0 0 0 0 0 0 => line 2 BadNumber
DEV/fix 356307042441013 0 0 2147483648 0 0 0 0 0 => line 2 BadNumber
DEV/fix 356307042441013 0 0 0 -32769 0 0 0 0 => line 2 BadNumber
DEV/fix 356307042441013 0 0 0 0 0 256 0 0 => line 2 BadNumber
DEV/fix 356307042441013 0 0 0 0 0 0 0 => line 2 FieldCount
DEV/fix 356307042441013 0 0 0 0 0 0 0 0  => line 2 BadNumber
DEV/fix 356307042441013 0 0 0 0 0 0 0 0 1 => line 2 ValueCount
DEV/fix 356307042441014 0 0 0 0 0 0 0 0 1 x => line 2 BadNumber
DEV/io 356307042441013 1 1 change 0 0 0/fix 356307042441013 0 0 0 0 0 0 0 0 255/power server => 1 2 3 4
DEV/io 356307042441013 1 1 change 0 0 0/fix 356307042441013 0 0 0 0 0 0 0 0 256 => line 3 ValueTooWide
DEV/io 356307042441013 1 1 change 0 0 0/fix 356307042441013 0 0 0 0 0 0 0 0 => line 3 ValueCount
DEV/io 356307042441013 1 3 change 0 0 0 => line 2 BadSetting
DEV/io 356307042441013 256 1 change 0 0 0 => line 2 BadSetting
DEV/io 356307042441013 1 256 chance 0 0 0 => line 2 BadNumber
DEV/io 356307042441014 1 3 change 0 0 0 => line 2 NoDevice
DEV/power 356307042441013/io 356307042441013 1 3 change 0 0 0 => line 3 SettingsClosed
DEV/fuse 356307042441013 0 keep/io 356307042441013 1 1 exit 0 0 0 => line 3 SettingsClosed
DEV/power server/io 356307042441013 1 1 hysteresis 0 0 0 => 1 2 3
";

/// The text that a row stands for.
fn text_of(alloc: Global, row: &str) -> Result<String, NoMemory> {
    let mut text = String::new(alloc);
    for line in row.split('/') {
        match line {
            "DEV" => text.push_str(DEVICE)?,
            _ => text.push_str(format!(in alloc; "{line}\n")?.as_str())?,
        }
    }
    Ok(text)
}

#[test]
fn texts_and_their_first_faults(rt: HostRuntime) -> Result<(), Fail> {
    for row in TEXTS.lines() {
        if let Some((row, wanted)) = row.split_once(" =>") {
            let text = text_of(rt.alloc(), row)?;
            assert_eq!(rt;
                told(rt.alloc(), text.as_str().as_bytes())?.as_str(),
                wanted,
                "{row}"
            );
        }
    }
    Ok(())
}

#[test]
fn bytes_in_odd_places(rt: HostRuntime) -> Result<(), Fail> {
    assert_eq!(rt; told(rt.alloc(), b"")?.as_str(), "");
    assert_eq!(rt;
        told(rt.alloc(), b"\xff\x00")?.as_str(),
        " line 1 UnknownWord"
    );
    assert_eq!(rt;
        told(rt.alloc(), b"\r\n#\r\n\r")?.as_str(),
        " line 3 UnknownWord"
    );
    let ends = b"power server\nfuse server 1000000 open\r\n\n#\nfuse server 0 half";
    assert_eq!(rt; told(rt.alloc(), ends)?.as_str(), " 1 2 5");
    assert_eq!(rt;
        told(rt.alloc(), b"fuse server 1 open\r\r\n")?.as_str(),
        " line 1 BadChoice"
    );
    Ok(())
}

/// Nothing of a script, or the first fault of another text.
fn refusal(alloc: Global, text: &str) -> Result<String, NoMemory> {
    match read_script(alloc, text.as_bytes()) {
        Ok(_script) => Ok(String::new(alloc)),
        Err(fault) => Ok(format!(in alloc; "{fault}")?),
    }
}

/// The device's line, `round` lines that leave a connection half-open each, and these lines.
fn after_rounds(alloc: Global, count: u32, last: &str) -> Result<String, NoMemory> {
    let mut text = format!(in alloc; "{DEVICE}")?;
    for _ in 0..count {
        text.push_str("round 356307042441013 1 0 -\n")?;
    }
    text.push_str(last)?;
    refusal(alloc, text.as_str())
}

#[test]
fn half_open_connections(rt: HostRuntime) -> Result<(), Fail> {
    for (last, wanted) in [
        ("round 356307042441013 1 - 0", "line 66 TooManyOpen"),
        ("close 65", "line 66 NoConnection"),
        (
            "round 356307042441013 1 - -\ndrain 356307042441013 1\nclose 66",
            "",
        ),
        (
            "late 2 -\nround 356307042441013 1 - 0",
            "line 67 TooManyOpen",
        ),
        (
            "close 64\nround 356307042441013 1 - 0\nround 356307042441013 1 0 0",
            "line 68 TooManyOpen",
        ),
        ("power server\nround 356307042441013 1 - 0", ""),
        (
            "power 356307042441013\nround 356307042441013 1 - 0",
            "line 67 TooManyOpen",
        ),
        (
            "fuse server 0 keep\nround 356307042441013 1 - 0\nround 356307042441013 1 - 0",
            "",
        ),
        (
            "fuse server 0 keep\nlate 3 -\nround 356307042441013 1 - 0",
            "",
        ),
        (
            "fuse server 0 keep\npower server\nround 356307042441013 1 - 0",
            "",
        ),
        (
            "fuse 356307042441013 0 keep\nround 356307042441013 1 - 0",
            "line 67 TooManyOpen",
        ),
    ] {
        assert_eq!(rt; after_rounds(rt.alloc(), 64, last)?.as_str(), wanted);
    }
    Ok(())
}

/// A text of devices, each with I/O settings.
fn with_devices(alloc: Global, devices: u64, settings: u32) -> Result<String, NoMemory> {
    let mut text = String::new(alloc);
    for imei in 0..devices {
        text.push_str(format!(in alloc;
            "device {imei:015} 8E 1 oldest 0 0 0 0 known\n"
        )?.as_str())?;
        for id in 0..settings {
            text.push_str(format!(in alloc; "io {imei:015} {id} 1 change 0 0 0\n")?.as_str())?;
        }
    }
    refusal(alloc, text.as_str())
}

#[test]
fn the_most_devices_and_settings(rt: HostRuntime) -> Result<(), Fail> {
    assert_eq!(rt; with_devices(rt.alloc(), 64, 32)?.as_str(), "");
    assert_eq!(rt;
        with_devices(rt.alloc(), 65, 1)?.as_str(),
        "line 129 TooManyDevices"
    );
    assert_eq!(rt;
        with_devices(rt.alloc(), 1, 33)?.as_str(),
        "line 34 BadSetting"
    );
    Ok(())
}

#[test]
fn refuses_a_long_text(rt: HostRuntime) -> Result<(), Fail> {
    let longest = vec![in rt.alloc(); b'#'; 0x100_0000]?;
    assert_eq!(rt; told(rt.alloc(), longest.as_slice())?.as_str(), "");
    let too_long = vec![in rt.alloc(); b'#'; 0x100_0001]?;
    assert_eq!(rt;
        told(rt.alloc(), too_long.as_slice())?.as_str(),
        " line 0 TextTooLong"
    );
    Ok(())
}

#[test]
fn a_fix_line_as_it_was_written(rt: HostRuntime) -> Result<(), Fail> {
    let text = format!(in rt.alloc();
        "{DEVICE}io 356307042441013 1 2 entrance 3 4 5\n\nfix 356307042441013 1 -2 3 -4 5 6 7 8 9"
    )?;
    let script = read_script(rt.alloc(), text.as_bytes())?;
    assert_eq!(rt; script.len(), 3);
    assert_eq!(rt; script.number_at(2), 4);
    match script.line_at(2) {
        ScriptLine::Fix { imei, fix } => {
            assert_eq!(rt; imei.number(), 356_307_042_441_013);
            assert_eq!(rt;
                (
                    fix.time,
                    fix.gps.longitude,
                    fix.gps.latitude,
                    fix.gps.altitude
                ),
                (1, -2, 3, -4)
            );
            assert_eq!(rt;
                (
                    fix.gps.angle,
                    fix.gps.satellites,
                    fix.gps.speed,
                    fix.odometer
                ),
                (5, 6, 7, 8)
            );
            assert_eq!(rt; fix.values.as_slice(), [9].as_slice());
        }
        _ => assert!(rt; false),
    }
    Ok(())
}

/// What is written of a text's script.
fn written(alloc: Global, text: &str) -> Result<String, Fail> {
    let script = read_script(alloc, text.as_bytes())?;
    let written = write_script(alloc, &script)?;
    Ok(String::from_utf8_lossy(alloc, written.as_slice())?)
}

#[test]
fn writes_what_was_read(rt: HostRuntime) -> Result<(), Fail> {
    let fixes =
        "fix 356307042441013 1560161086000 0 0 0 0 0 0 0\nfix 356307042441013 1560161087000 -1 -2147483648 -3 4 5 6 7";
    let text = format!(in rt.alloc(); "{DEVICE}{fixes}\nround 356307042441013 7 - -")?;
    assert_eq!(rt; written(rt.alloc(), text.as_str())?.as_str(), text.as_str());
    let spaced = "\n# one\nfuse server 1 zero\r\n#\n\npower server\n\n";
    assert_eq!(rt;
        written(rt.alloc(), spaced)?.as_str(),
        "\n\nfuse server 1 zero\n\n\npower server"
    );
    assert_eq!(rt; written(rt.alloc(), "\n#")?.as_str(), "");
    Ok(())
}

/// The line and the number of the fault that `drive` finds, or 0.
fn driven(alloc: Global, text: &str) -> Result<(u32, u8), Fail> {
    let text = format!(in alloc; "{DEVICE}{text}")?;
    let script = read_script(alloc, text.as_bytes())?;
    Ok(match drive_fault(&script) {
        Some((line, fault)) => (line, fault.number()),
        None => (0, 0),
    })
}

#[test]
fn lines_that_drive_refuses(rt: HostRuntime) -> Result<(), Fail> {
    for (text, wanted) in [
        (
            "round 356307042441013 1 - -\ndrain 356307042441013 1\npower 356307042441013",
            (0, 0),
        ),
        ("round 356307042441013 1 - -\n\nclose 1\nlate 1 1", (4, 16)),
        ("round 356307042441013 1 - 1", (2, 16)),
        ("power server\nfuse server 1 new", (2, 16)),
        ("fuse 356307042441013 1 new", (2, 16)),
        (
            "device 356307042441014 8 1 oldest 0 0 0 0 stranger",
            (2, 16),
        ),
    ] {
        assert_eq!(rt; driven(rt.alloc(), text)?, wanted);
    }
    Ok(())
}
