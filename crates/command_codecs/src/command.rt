//! What a command says.
ghost use Rattle.std.specs.Prelude.{◌↔◌, IsTrue};
ghost use Rattle.command_layout.specs.Table.{WellFormed};
ghost use Rattle.command_codecs.specs.Views.{value_of};

use crate::row::row_of;
use avl_values::Imei;
use command_layout::Way;

/// A command or a response (Teltonika, Data Sending Protocols: Codecs 12, 13, 14, 15).
#[derive(Clone, Copy)]
pub struct Command<'a> {
    /// The codec id: `0C`, `0D`, `0E` or `0F`.
    pub codec: u8,
    /// The type: `05` a command, `06` a response or message, `11` a refusal, `0B` a message of Codec 15.
    pub kind: u8,
    /// Seconds, in Codecs 13 and 15.
    pub time: Option<u32>,
    /// The device's, in Codecs 14 and 15.
    pub imei: Option<Imei>,
    /// Any bytes.
    pub text: &'a [u8],
}

/// Whether a command may pass this way: exactly where its type may be in a command of its codec and way, and time and IMEI are
/// there exactly where that has them.
pub fn well_formed(command: &Command<'_>, way: Way) -> bool
    ensures { IsTrue result ↔ WellFormed way (value_of command.now) }
{
    match row_of(way, command.codec) {
        Some(row) => {
            row.has_kind(command.kind)
                && command.time.is_some() == row.time
                && command.imei.is_some() == row.imei
        }
        None => false,
    }
}
