//! A text that is judged, and played where it is a script.
ghost use Rattle.std.specs.Prelude.{◌≡◌, ◌⊎◌, codes};
ghost use Rattle.fmb_io.specs.Printed.{Prints};
ghost use Rattle.fmb_trial.specs.Ran.{Judged};
ghost use Rattle.journey_script.specs.Faults.{fault_name};
ghost use Rattle.text_streams.specs.Refused.{refused_line};

use crate::playing::run_script;
use fmb_host::Host;
use fmb_io::{REFUSED_TEXT, give_up, say};
use journey_script::{ReadFault, ScriptFault, read_script};
use std::alloc::Global;
use text_streams::refused_text;

// Prints the line of a text that was refused.
fn refuse<H: Host>(alloc: Global, host: &mut H, line: u32, kind: ScriptFault) -> u8
    ensures among { (result ≡ 3) ⊎ (result ≡ 9) }
    ensures refused { result ≡ 3 → Prints (refused_line line (fault_name kind)) (H.view host.old) (H.view host.new) }
    ensures no_memory { result ≡ 9 → Prints (codes "no memory\n") (H.view host.old) (H.view host.new) }
    ensures others { H.view host.new ≡ record (H.view host.old) { sink = (H.view host.new).sink } }
{
    let Ok(text) = refused_text(alloc, line, kind.name()) else {
        return give_up(host);
    };
    say(host, text.as_slice());
    REFUSED_TEXT
}

/// Judges a text, plays it as a trial, and prints its report.
pub(crate) fn judge<H: Host>(alloc: Global, host: &mut H, text: &[u8], brief: bool) -> u8
    ensures { Judged text.now brief result (H.view host.old) (H.view host.new) }
{
    match read_script(alloc, text) {
        Ok(script) => run_script(alloc, host, &script, brief),
        Err(ReadFault::Line { line, kind }) => refuse(alloc, host, line, kind),
        Err(ReadFault::NoMemory) => give_up(host),
    }
}
