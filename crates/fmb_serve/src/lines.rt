//! What is printed of a server that has served.
ghost use Rattle.std.specs.Prelude.{◌≡◌, ◌≤◌, ◌++◌, ◌<◌, ◌^◌, OnOk, IfOk, length};
ghost use Rattle.fmb_serve.specs.Lines.{archive_line, end_of as end_said, login_words, serve_lines, session_line, session_lines, worker_lines};
ghost use Rattle.shelf.specs.Archive.{devices_of};

use avl_values::{Imei, NoMemory};
use fmb_text::push_server_end;
use medium_model::Medium;
use server_loop::{ServedList, WorkerList};
use session_core::{Served, SessionEnd};
use shelf::Shelf;
use std::alloc::Global;
use text_streams::{push, push_decimal, push_imei};
use trial_model::ServerEnd;

fn end_of(end: SessionEnd) -> ServerEnd
    ensures { result ≡ end_said end }
{
    match end {
        SessionEnd::Ended => ServerEnd::Ended,
        SessionEnd::EndedInside { have } => ServerEnd::EndedInside { have },
        SessionEnd::LinkFault => ServerEnd::LinkFault,
        SessionEnd::Broken(fault) => ServerEnd::Broken(fault),
        SessionEnd::Unknown { imei } => ServerEnd::Unknown { imei },
        SessionEnd::MediumFault { faults } => ServerEnd::MediumFault { faults },
        SessionEnd::Down { faults } => ServerEnd::Down { faults },
        SessionEnd::LongEnough { taken } => ServerEnd::LongEnough { taken },
        SessionEnd::NoMemory => ServerEnd::NoMemory,
    }
}

fn push_login(text: &mut Vec<u8>, imei: &Option<Imei>) -> Result<(), NoMemory>
    ensures { OnOk result (text.new.items ≡ text.old.items ++ login_words imei.now) }
{
    match imei {
        None => push(text, b"-"),
        Some(imei) => push_imei(text, imei),
    }
}

// `session W I IMEI END`.
fn push_session(
    text: &mut Vec<u8>,
    worker: u64,
    number: u64,
    served: &Served,
) -> Result<(), NoMemory>
    ensures { OnOk result (text.new.items ≡ text.old.items ++ session_line worker number served.now) }
{
    push(text, b"session ")?;
    push_decimal(text, worker)?;
    push(text, b" ")?;
    push_decimal(text, number)?;
    push(text, b" ")?;
    push_login(text, &served.imei)?;
    push(text, b" ")?;
    push_server_end(text, end_of(served.end))?;
    push(text, b"\n")?;
    Ok(())
}

fn push_sessions(text: &mut Vec<u8>, worker: u64, served: &ServedList) -> Result<(), NoMemory>
    ensures { OnOk result (text.new.items ≡ text.old.items ++ session_lines worker 1 served.now) }
{
    'sessions: for i in 0..served.len() {
        push_session(text, worker, i as u64 + 1, served.at(i))?;
    }
    Ok(())
}

fn push_workers(text: &mut Vec<u8>, workers: &WorkerList) -> Result<(), NoMemory>
    ensures { OnOk result (text.new.items ≡ text.old.items ++ worker_lines 1 workers.now) }
{
    'workers: for i in 0..workers.len() {
        push_sessions(text, i as u64 + 1, &workers.at(i).served)?;
    }
    Ok(())
}

// `archive records N devices D`.
fn push_archive<M: Medium>(text: &mut Vec<u8>, shelf: &Shelf<M>) -> Result<(), NoMemory>
    ensures { OnOk result (text.new.items ≡ text.old.items ++ archive_line shelf.now.list) }
{
    push(text, b"archive records ")?;
    push_decimal(text, shelf.list().len() as u64)?;
    push(text, b" devices ")?;
    push_decimal(text, shelf.devices())?;
    push(text, b"\n")?;
    Ok(())
}

/// The lines of all sessions, by worker and in order, and the line of the archive.
pub(crate) fn lines_of<M: Medium>(
    alloc: Global,
    workers: &WorkerList,
    shelf: &Shelf<M>,
) -> Result<Vec<u8>, NoMemory>
    ensures { IfOk result (λ text. text.items ≡ serve_lines workers.now shelf.now.list) }
{
    let mut text = Vec::new(alloc);
    push_workers(&mut text, workers)?;
    push_archive(&mut text, shelf)?;
    Ok(text)
}
