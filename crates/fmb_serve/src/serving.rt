ghost use Rattle.std.specs.Prelude.{◌≡◌, ◌<◌, ◌≤◌, ◌^◌, ◌-◌, ◌+◌, ℕ, List, ◌==◌, if◌then◌else◌, codes, false, length, map, All};
ghost use Rattle.fmb_host.specs.Host.{AreSmall, HostView};
ghost use Rattle.fmb_io.specs.Printed.{Prints};
ghost use Rattle.session_core.specs.Knowing.{knows};
ghost use Rattle.fmb_serve.specs.Lines.{serve_lines};
ghost use Rattle.fmb_serve.specs.Serve.{RanServe, ServeRefuses, ServeServes};
ghost use Rattle.fmb_serve.specs.Steps.{IsClosed, IsOpened, IsReady, IsTold};

use crate::doors_opened::{give_back, open_doors};
use crate::lines::lines_of;
use crate::statuses::status_of;
use archive_journal::ArchiveFault;
use avl_values::{Failed, NoMemory};
use doors::Door;
use fmb_host::Host;
use fmb_io::{
    DONE, HOST_FAULT, MEDIUM_FAULT, REFUSED_MEDIUM, SINK_FAULT, give_up, miss, print, say,
};
use server_loop::{ServeReport, WorkerList, serve};
use session_core::Known;
use shelf::Shelf;
use std::alloc::Global;
use std::sync::Wait;
use std::thread::Threads;

// Prints the lines of what was served, which are made whole before.
fn tell<H: Host>(alloc: Global, host: &mut H, workers: &WorkerList, shelf: &Shelf<H::File>) -> u8
    ensures { IsTold (serve_lines workers.now shelf.now.list) result (H.view host.old) (H.view host.new) }
{
    let Ok(text) = lines_of(alloc, workers, shelf) else {
        return give_up(host);
    };
    match print(host, text.as_slice()) {
        Ok(()) => DONE,
        Err(Failed) => SINK_FAULT,
    }
}

// The status after serving and printing.
fn status_after(serving: u8, printed: u8) -> u8
    ensures { result ≡ (if serving == 0 then printed else serving) }
{
    if serving == DONE { printed } else { serving }
}

// Tells what serving came to, and gives doors and archive back.
fn close<H: Host>(alloc: Global, host: &mut H, report: ServeReport<H::Gate, H::File>) -> u8
    requires doors { (H.view host.old).counts.doors + length report.doors.items < 2 ^ 64 }
    requires media { (H.view host.old).counts.media < 2 ^ 64 - 1 }
    ensures { IsClosed H.Gate.L.state report.workers report.shelf (map H.Gate.state report.doors.items) result (H.view host.old) (H.view host.new) }
{
    let ServeReport {
        doors,
        shelf,
        workers,
    } = report;
    let serving = status_of(&shelf, &workers);
    let printed = tell(alloc, host, &workers, &shelf);
    give_back(host, doors);
    host.medium_back(shelf.into_medium());
    status_after(serving, printed)
}

// Serves the archive at the doors.
fn serve_at<R: Threads + Wait + Sync, H: Host>(
    rt: &R,
    alloc: Global,
    host: &mut H,
    doors: Vec<H::Gate>,
    shelf: Shelf<H::File>,
    known: &Known,
    sessions: u32,
) -> u8
where
    H::File: Send,
    H::Gate: Send,
    <H::Gate as Door>::L: Send,
    requires small { AreSmall (H.view host.old).counts }
    requires some { 0 < length doors.items }
    requires few { length doors.items ≤ 64 }
    requires links { All (λ d. (H.Gate.state d).link_faults < 2 ^ 63) doors.items }
    requires some_sessions { 0 < sessions }
    requires few_sessions { sessions ≤ 100000 }
    requires up { shelf.down ≡ false }
    ensures { (start : HostView) (address archive : List ℕ) (workers : ℕ) → IsReady H.Gate.L.state address archive workers start shelf (map H.Gate.state doors.items) (H.view host.old)
        → RanServe H.Gate.L.state H.Gate.L.follows (knows known.now) address archive workers sessions result start (H.view host.new) }
{
    match serve(rt, alloc, doors, shelf, known, sessions) {
        Ok(report) => close(alloc, host, report),
        Err((doors, shelf, NoMemory)) => {
            give_back(host, doors);
            host.medium_back(shelf.into_medium());
            give_up(host)
        }
    }
}

// Opens the doors for an archive, and serves it at them.
fn serve_shelf<R: Threads + Wait + Sync, H: Host>(
    rt: &R,
    alloc: Global,
    host: &mut H,
    address: &str,
    shelf: Shelf<H::File>,
    known: &Known,
    workers: u32,
    sessions: u32,
) -> u8
where
    H::File: Send,
    H::Gate: Send,
    <H::Gate as Door>::L: Send,
    requires small { AreSmall (H.view host.old).counts }
    requires some { 0 < workers }
    requires few { workers ≤ 64 }
    requires some_sessions { 0 < sessions }
    requires few_sessions { sessions ≤ 100000 }
    requires up { shelf.down ≡ false }
    ensures { (start : HostView) (archive : List ℕ) → IsOpened archive start shelf (H.view host.old)
        → RanServe H.Gate.L.state H.Gate.L.follows (knows known.now) address.now archive workers sessions result start (H.view host.new) }
{
    match open_doors(alloc, host, address, workers) {
        Ok(doors) => serve_at(rt, alloc, host, doors, shelf, known, sessions),
        Err(missing) => {
            host.medium_back(shelf.into_medium());
            miss(host, missing)
        }
    }
}

// Says why an archive was not opened. Returns the status of that.
fn refuse<H: Host>(host: &mut H, fault: ArchiveFault) -> u8
    ensures medium_fault { fault ≡ ArchiveFault.MediumFault → (result ≡ 6) × Prints (codes "medium fault\n") (H.view host.old) (H.view host.new) }
    ensures not_archive { fault ≡ ArchiveFault.NotArchive → (result ≡ 8) × Prints (codes "refused archive\n") (H.view host.old) (H.view host.new) }
    ensures no_memory { fault ≡ ArchiveFault.NoMemory → (result ≡ 9) × Prints (codes "no memory\n") (H.view host.old) (H.view host.new) }
    ensures others { H.view host.new ≡ record (H.view host.old) { sink = (H.view host.new).sink } }
{
    match fault {
        ArchiveFault::MediumFault => {
            say(host, b"medium fault\n");
            MEDIUM_FAULT
        }
        ArchiveFault::NotArchive => {
            say(host, b"refused archive\n");
            REFUSED_MEDIUM
        }
        ArchiveFault::NoMemory => give_up(host),
    }
}

/// Serves the archive of this name at an address, by 1 to 64 workers with 1 to 100,000 sessions each, which are those of the devices
/// that are known. It opens archive and doors, serves, prints what came of each session and what the archive has then, and gives all
/// back that it opened. Returns the status. It may wait.
pub fn run_serve<R: Threads + Wait + Sync, H: Host>(
    rt: &R,
    alloc: Global,
    host: &mut H,
    address: &str,
    archive: &str,
    known: &Known,
    workers: u32,
    sessions: u32,
) -> u8
where
    H::File: Send,
    H::Gate: Send,
    <H::Gate as Door>::L: Send,
    requires small { AreSmall (H.view host.old).counts }
    requires some { 0 < workers }
    requires few { workers ≤ 64 }
    requires some_sessions { 0 < sessions }
    requires few_sessions { sessions ≤ 100000 }
    ensures ran { RanServe H.Gate.L.state H.Gate.L.follows (knows known.now) address.now archive.now workers sessions result (H.view host.old) (H.view host.new) }
    ensures refuses { ServeRefuses result (H.view host.old) (H.view host.new) }
    ensures serves { ServeServes result (H.view host.old) (H.view host.new) }
{
    let Ok(medium) = host.open_medium(archive) else {
        say(host, b"host fault\n");
        return HOST_FAULT;
    };
    match Shelf::open(alloc, medium) {
        Ok(shelf) => serve_shelf(rt, alloc, host, address, shelf, known, workers, sessions),
        Err((fault, medium)) => {
            host.medium_back(medium);
            refuse(host, fault)
        }
    }
}
