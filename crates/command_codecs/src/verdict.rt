ghost use Rattle.std.specs.Prelude.{◌≡◌};
ghost use Rattle.command_codecs.specs.Verdicts.{command_scan};

use avl_values::Fault;
use field_machine::Scan;

/// What is known of a command's body from its first bytes.
#[derive(Clone, Copy, Debug, PartialEq, Eq)]
pub enum CommandScan {
    /// No field has failed, and bytes are missing.
    More,
    /// The body is whole, and a command.
    Whole,
    /// The first field that failed.
    Broken(Fault),
}

impl CommandScan {
    /// What was found of a body that is judged as any item.
    pub(crate) fn of(scan: Scan<()>) -> CommandScan
        ensures { result ≡ command_scan scan }
    {
        match scan {
            Scan::More => CommandScan::More,
            Scan::Whole(()) => CommandScan::Whole,
            Scan::Broken(fault) => CommandScan::Broken(fault),
        }
    }
}
