//! The program: `fmb show FILE`, `fmb trial FILE [--brief]`, `fmb made SEED DEVICES FIXES`, `fmb drive ADDRESS FLASH SCRIPT`, and
//! `fmb serve ADDRESS ARCHIVE [IMEI ..] --workers W --sessions K`. It is a host over the file system, TCP and standard output, with benches
//! in memory, and ends with the status of `run`. The adapters tell nothing of what a file holds, a connection carried or standard output
//! took; they count their failures.
#![tactic(auto)]

mod file;
#[cfg(test)]
mod loopback;
mod output;
mod system;
#[cfg(test)]
mod tests;

use crate::output::Output;
use crate::system::System;
use fmb_run::{NO_MEMORY, give_up, run};
use std::alloc::{AllocError, Global};
use std::process::ExitCode;
use std::{env, io};
use text_streams::Sink;

/// The words after the program's name. Words that are no UTF-8 are none that the program knows: there are none then.
fn words_of(rt: &HostRuntime) -> Result<Vec<String>, AllocError> {
    let mut words = Vec::new(rt.alloc());
    match env::args(rt) {
        Ok(args) => {
            for word in args.skip(1) {
                words.push(word)?;
            }
        }
        Err(e) => {
            if e.kind() == io::ErrorKind::OutOfMemory {
                return Err(AllocError);
            }
        }
    }
    Ok(words)
}

fn main(rt: HostRuntime) -> ExitCode {
    let alloc: Global = rt.alloc();
    let words = words_of(&rt);
    let mut out = Output::new(rt.stdout());
    let Ok(own) = rt.clone() else {
        let _ = out.write(b"no memory\n");
        return ExitCode::from(NO_MEMORY);
    };
    let mut host = System::new(own, out);
    match words {
        Ok(words) => ExitCode::from(run(&rt, alloc, words.as_slice(), &mut host)),
        Err(AllocError) => ExitCode::from(give_up(&mut host)),
    }
}
