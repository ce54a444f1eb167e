ghost use Rattle.std.specs.Prelude.{◌≡◌, ◌≢◌, ◌⊎◌, ◌+◌, ◌<◌, ◌^◌, IfOk, Err, codes, length};
ghost use Rattle.std.specs.Io.KnownBytes.{IsAtEnd};
ghost use Rattle.fmb_host.specs.Host.{AreSmall, with_host_fault};
ghost use Rattle.fmb_io.specs.Printed.{Prints};
ghost use Rattle.fmb_io.specs.Text.{IsReturned, ReadsText};

use crate::printing::say;
use crate::reading::{Unread, read_text};
use crate::status::{HOST_FAULT, NO_MEMORY, SOURCE_FAULT};
use fmb_host::Host;
use std::alloc::Global;

/// Why a text was not had from the host.
#[derive(Clone, Copy, Debug, PartialEq, Eq)]
pub enum Missing {
    /// The host failed to open it.
    Host,
    /// It failed while it was read.
    Source,
    NoMemory,
}

/// Opens a text, reads it, and gives it back.
pub fn fetch<H: Host>(alloc: Global, host: &mut H, name: &str) -> Result<Vec<u8>, Missing>
    requires { AreSmall (H.view host.old).counts }
    ensures text { IfOk result (λ text. ReadsText name.now text.items (H.view host.old) (H.view host.new)) }
    ensures returned { result ≢ Err Missing.Host → IsReturned (λ read. IfOk result (λ text. IsAtEnd read.left ⊎ (2 ^ 24 < length text.items))) (H.view host.old) (H.view host.new) }
    ensures counts { result ≢ Err Missing.Host → result ≢ Err Missing.Source → (H.view host.new).counts ≡ (H.view host.old).counts }
    ensures source_cause { result ≡ Err Missing.Source → (H.view host.new).counts ≡ record (H.view host.old).counts { texts = (H.view host.old).counts.texts + 1 } }
    ensures host_cause { result ≡ Err Missing.Host → H.view host.new ≡ with_host_fault (H.view host.old) }
    ensures others { H.view host.new ≡ record (H.view host.old) { counts = (H.view host.new).counts; texts = (H.view host.new).texts } }
{
    let Ok(mut source) = host.open_text(name) else {
        return Err(Missing::Host);
    };
    let text = read_text(alloc, &mut source);
    host.text_back(source);
    match text {
        Ok(text) => Ok(text),
        Err(Unread::Failed) => Err(Missing::Source),
        Err(Unread::NoMemory) => Err(Missing::NoMemory),
    }
}

/// Says that memory ran out, and changes nothing else. Returns the status of that.
pub fn give_up<H: Host>(host: &mut H) -> u8
    ensures status { result ≡ 9 }
    ensures line { Prints (codes "no memory\n") (H.view host.old) (H.view host.new) }
    ensures others { H.view host.new ≡ record (H.view host.old) { sink = (H.view host.new).sink } }
{
    say(host, b"no memory\n");
    NO_MEMORY
}

/// Says why a text was not had, and changes nothing else. Returns the status of that.
pub fn miss<H: Host>(host: &mut H, missing: Missing) -> u8
    ensures host_fault { missing ≡ Missing.Host → (result ≡ 7) × Prints (codes "host fault\n") (H.view host.old) (H.view host.new) }
    ensures source_fault { missing ≡ Missing.Source → (result ≡ 4) × Prints (codes "source fault\n") (H.view host.old) (H.view host.new) }
    ensures no_memory { missing ≡ Missing.NoMemory → (result ≡ 9) × Prints (codes "no memory\n") (H.view host.old) (H.view host.new) }
    ensures others { H.view host.new ≡ record (H.view host.old) { sink = (H.view host.new).sink } }
{
    match missing {
        Missing::Host => {
            say(host, b"host fault\n");
            HOST_FAULT
        }
        Missing::Source => {
            say(host, b"source fault\n");
            SOURCE_FAULT
        }
        Missing::NoMemory => give_up(host),
    }
}
