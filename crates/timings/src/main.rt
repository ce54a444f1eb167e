//! Works a part of the product over and over, so that the scripts of bench/ can time it: `timings WHAT [N [N [N]]]` prints two
//! numbers that say what was done. Without words it does a little of everything.
#![tactic(auto)]

mod acquisition_work;
mod archive_work;
mod bodies;
mod codec_work;
mod desk_work;
mod frame_work;
mod line_work;
mod ring_work;
mod script_work;
mod session_work;
mod tracker_work;

use anyhow::Context;
use std::env;
use std::sync::Wait;
use std::thread::Threads;

/// A little of everything.
const SAMPLES: [(&str, [u64; 3]); 15] = [
    ("codecs", [112, 1, 0]),
    ("fields", [112, 1, 0]),
    ("frames", [2, 1460, 0]),
    ("lines", [7, 3, 0]),
    ("acquisition", [1000, 0, 0]),
    ("archive", [5, 2, 1]),
    ("desk", [40, 4, 0]),
    ("release", [4, 0, 0]),
    ("rounds", [40, 0, 0]),
    ("overwrite", [4, 0, 0]),
    ("medium", [4, 0, 0]),
    ("scripts", [0, 100_000, 1]),
    ("made", [1, 2, 100]),
    ("talks", [100, 2, 1]),
    ("sessions", [5, 1460, 1]),
];

/// Does what the word says, and gives its two numbers; None for another word, or where memory or a file failed.
fn work<R: Threads + Wait + Sync>(
    rt: &R,
    host: &HostRuntime,
    what: &str,
    numbers: [u64; 3],
) -> Option<(u64, u64)> {
    let alloc = host.alloc();
    let [first, second, third] = numbers;
    match what {
        "codecs" => codec_work::judge_packets(alloc, first, second, false),
        "fields" => codec_work::judge_packets(alloc, first, second, true),
        "frames" => frame_work::read_stream(alloc, first, second),
        "lines" => line_work::write_lines(alloc, first, second),
        "acquisition" => acquisition_work::acquire(first),
        "archive" => archive_work::archive(alloc, first, second, third),
        "filed" => archive_work::archive_file(host, first, second, third),
        "desk" => desk_work::admit(rt, alloc, first, second),
        "sessions" => session_work::serve(alloc, first, second, third > 0),
        "scripts" => script_work::read_scripts(alloc, first, second, third),
        "made" => script_work::make_scripts(alloc, first, second, third),
        "talks" => tracker_work::talk(alloc, first, second, third > 0),
        "medium" => ring_work::write_medium(alloc, first),
        _ => ring_work::work(alloc, what, first),
    }
}

fn main(rt: HostRuntime) -> anyhow::Result<()> {
    let mut what = None;
    let mut numbers = [0; 3];
    let mut given = 0;
    for word in env::args(&rt)?.skip(1) {
        if what.is_none() {
            what = Some(word);
        } else if given < 3 {
            numbers[given] = word.as_str().parse().context("a number")?;
            given += 1;
        }
    }
    match what {
        Some(what) => {
            let (first, second) = work(&rt, &rt, what.as_str(), numbers).context("all of it")?;
            println!(rt; "{first} {second}")?;
        }
        None => {
            for (what, numbers) in SAMPLES {
                let (first, second) = work(&rt, &rt, what, numbers).context("all of it")?;
                println!(rt; "{what} {first} {second}")?;
            }
        }
    }
    Ok(())
}
