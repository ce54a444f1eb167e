use avl_values::NoMemory;
use journey_script::{read_script, write_script};
use made_script::make_script;
use std::alloc::Global;

/// Puts as many such lines last as leave the text within these bytes.
fn fill(text: &mut String, lines: &str, bytes: usize) -> Result<(), NoMemory> {
    for _ in 0..bytes {
        if text.len() >= bytes || lines.len() > bytes - text.len() {
            break;
        }
        text.push_str(lines)?;
    }
    Ok(())
}

/// A script of these devices, each with as many I/O settings.
fn devices(alloc: Global, devices: u64, settings: u32) -> Result<String, NoMemory> {
    let mut text = String::new(alloc);
    for imei in 0..devices {
        text.push_str(format!(in alloc;
            "device {imei:015} 8E 1 oldest 0 0 0 0 known\n"
        )?.as_str())?;
        for id in 0..settings {
            text.push_str(format!(in alloc; "io {imei:015} {id} 1 change 0 0 0\n")?.as_str())?;
        }
    }
    Ok(text)
}

/// A `fix` line of each device, with as many values.
fn fixes(alloc: Global, devices: u64, values: u32) -> Result<String, NoMemory> {
    let mut text = String::new(alloc);
    for imei in 0..devices {
        text.push_str(format!(in alloc; "fix {imei:015} 0 0 0 0 0 0 0 0")?.as_str())?;
        for _ in 0..values {
            text.push_str(" 0")?;
        }
        text.push_str("\n")?;
    }
    Ok(text)
}

/// A script of N bytes at most: of fixes with 32 values (0), of fixes without one (1), of `late` lines to 64 connections (2),
/// or of `close` lines (3).
fn script(alloc: Global, kind: u64, bytes: usize) -> Result<String, NoMemory> {
    match kind {
        0 => {
            let mut text = devices(alloc, 64, 32)?;
            fill(&mut text, fixes(alloc, 64, 32)?.as_str(), bytes)?;
            Ok(text)
        }
        1 => {
            let mut text = devices(alloc, 64, 0)?;
            fill(&mut text, fixes(alloc, 64, 0)?.as_str(), bytes)?;
            Ok(text)
        }
        2 => {
            let mut text = devices(alloc, 1, 0)?;
            let mut late = String::new(alloc);
            for connection in 1..=64 {
                text.push_str("round 000000000000000 1 0 -\n")?;
                late.push_str(format!(in alloc; "late {connection} 0\n")?.as_str())?;
            }
            fill(&mut text, late.as_str(), bytes)?;
            Ok(text)
        }
        _ => {
            let mut text = devices(alloc, 1, 0)?;
            for _ in 0..64 {
                text.push_str("round 000000000000000 1 0 -\n")?;
            }
            fill(&mut text, "close 1\n", bytes)?;
            Ok(text)
        }
    }
}

/// Reads a script of this kind and at most N bytes, at most 2^24, N times; its lines and its bytes.
pub fn read_scripts(alloc: Global, kind: u64, bytes: u64, rounds: u64) -> Option<(u64, u64)> {
    let text = script(alloc, kind, bytes.min(0x100_0000) as usize).ok()?;
    let mut lines = 0;
    for _ in 0..rounds {
        lines = read_script(alloc, text.as_bytes()).ok()?.len();
    }
    Some((lines as u64, text.len() as u64))
}

/// Makes the script of a seed, for 1 to 64 devices and 1 to 100,000 turns; its lines, and the bytes of its text.
pub fn make_scripts(alloc: Global, seed: u64, devices: u64, fixes: u64) -> Option<(u64, u64)> {
    let devices = devices.clamp(1, 64) as u8;
    let script = make_script(alloc, seed, devices, fixes.clamp(1, 100_000) as u32).ok()?;
    let text = write_script(alloc, &script).ok()?;
    Some((script.len() as u64, text.len() as u64))
}
