ghost use Rattle.std.specs.Prelude.{◌≡◌, OnOk};
ghost use Rattle.avl_values.specs.Causes.{HasCause};
ghost use Rattle.fmb_io.specs.Printed.{Prints, PrintsFront, PrintsWhole};

use avl_values::Failed;
use fmb_host::Host;
use text_streams::write_text;

/// Writes a whole text on the host's sink, and changes nothing else of the host.
pub fn print<H: Host>(host: &mut H, text: &[u8]) -> Result<(), Failed>
    ensures whole { OnOk result (PrintsWhole text.now (H.view host.old) (H.view host.new)) }
    ensures front { PrintsFront text.now (H.view host.old) (H.view host.new) }
    ensures cause { HasCause (H.view host.old).sink.faults (H.view host.new).sink.faults result }
    ensures others { H.view host.new ≡ record (H.view host.old) { sink = (H.view host.new).sink } }
{
    write_text(host.out(), text)
}

/// Writes a line on the host's sink, and changes nothing else of the host. That the sink fails on it changes nothing more.
pub fn say<H: Host>(host: &mut H, line: &[u8])
    ensures line { Prints line.now (H.view host.old) (H.view host.new) }
    ensures others { H.view host.new ≡ record (H.view host.old) { sink = (H.view host.new).sink } }
{
    let _ = print(host, line);
}
