ghost use Rattle.std.specs.Prelude.{◌≡◌, IfErr, IfOk, OnErr, codes};
ghost use Rattle.fmb_drive.specs.Ending.{EndsEarly, EndsWell};
ghost use Rattle.fmb_io.specs.Printed.{Prints};

use crate::lines::{flash_text, size_text, slot_text};
use crate::stop::Stop;
use avl_values::{Failed, NoMemory};
use fmb_host::Host;
use fmb_io::{DONE, HOST_FAULT, MEDIUM_FAULT, REFUSED_MEDIUM, SINK_FAULT, give_up, print, say};
use std::alloc::Global;

// Prints the number of open slots.
fn end_well<H: Host>(alloc: Global, host: &mut H, open_slots: u16) -> u8
    ensures { EndsWell open_slots result (H.view host.old) (H.view host.new) }
{
    let Ok(text) = flash_text(alloc, open_slots) else {
        return give_up(host);
    };
    match print(host, text.as_slice()) {
        Ok(()) => DONE,
        Err(Failed) => SINK_FAULT,
    }
}

// Prints why the flash is refused.
fn refuse_flash<H: Host>(host: &mut H, text: Result<Vec<u8>, NoMemory>) -> u8
    ensures status { IfOk text (λ line. result ≡ 8) }
    ensures line { IfOk text (λ line. Prints line.items (H.view host.old) (H.view host.new)) }
    ensures no_memory_status { OnErr text (result ≡ 9) }
    ensures no_memory { OnErr text (Prints (codes "no memory\n") (H.view host.old) (H.view host.new)) }
    ensures others { H.view host.new ≡ record (H.view host.old) { sink = (H.view host.new).sink } }
{
    let Ok(text) = text else {
        return give_up(host);
    };
    say(host, text.as_slice());
    REFUSED_MEDIUM
}

// Prints why a drive ended before its script did.
fn end_early<H: Host>(alloc: Global, host: &mut H, stop: Stop) -> u8
    ensures { EndsEarly stop result (H.view host.old) (H.view host.new) }
{
    match stop {
        Stop::SinkFault => SINK_FAULT,
        Stop::MediumFault => {
            say(host, b"medium fault\n");
            MEDIUM_FAULT
        }
        Stop::HostFault => {
            say(host, b"host fault\n");
            HOST_FAULT
        }
        Stop::Size { got, wanted } => refuse_flash(host, size_text(alloc, got, wanted)),
        Stop::Slot { slot } => refuse_flash(host, slot_text(alloc, slot)),
        Stop::Sequence => {
            say(host, b"refused flash sequence\n");
            REFUSED_MEDIUM
        }
        Stop::NoMemory => give_up(host),
    }
}

/// Prints the last line of a drive, and returns the status.
pub(crate) fn end_drive<H: Host>(alloc: Global, host: &mut H, ended: Result<u16, Stop>) -> u8
    ensures well { IfOk ended (λ count. EndsWell count result (H.view host.old) (H.view host.new)) }
    ensures early { IfErr ended (λ stop. EndsEarly stop result (H.view host.old) (H.view host.new)) }
{
    match ended {
        Ok(open_slots) => end_well(alloc, host, open_slots),
        Err(stop) => end_early(alloc, host, stop),
    }
}
