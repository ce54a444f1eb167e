//! A host in memory, and a command that is run on it.
ghost use Rattle.std.specs.Prelude.{IfSome};
ghost use Rattle.fmb_host.specs.Host.{AreSmall};

use fmb_host::MemoryHost;
use fmb_run::run;
use std::alloc::Global;
use std::sync::Wait;
use std::thread::Threads;
use text_streams::{MemorySink, MemorySource};

/// A host that hands out a text.
pub(crate) fn host_with(alloc: Global, text: &[u8]) -> Option<MemoryHost>
    ensures { IfSome result (λ host. AreSmall host.counts) }
{
    let sink = MemorySink::new(alloc, 1_000_000, &[]).ok()?;
    let mut host = MemoryHost::new(alloc, sink, &[]).ok()?;
    let source = MemorySource::new(alloc, text, &[]).ok()?;
    host.add_text(source).ok()?;
    Some(host)
}

/// Runs a command line on it. Returns the status.
pub(crate) fn run_line<R: Threads + Wait + Sync>(
    rt: &R,
    alloc: Global,
    host: &mut MemoryHost,
    line: &str,
) -> Option<u8>
    requires { AreSmall host.old.counts }
{
    let mut words = Vec::new(alloc);
    for word in line.split_whitespace() {
        words.push(String::from_str(alloc, word).ok()?).ok()?;
    }
    Some(run(rt, alloc, words.as_slice(), host))
}
