//! A place in a command's body, for the machine and the loop.
use crate::cursor::NextField;
use avl_values::FaultKind;
use command_layout::Way;
use field_machine::{Cursor, Left, Place};

/// Where in a body of `total` bytes that passes a way the next field stands.
#[derive(Clone, Copy)]
pub struct CommandPlace {
    way: Way,
    total: u32,
    at: NextField,
}

impl CommandPlace {
    ghost use Rattle.std.specs.Prelude.{◌≡◌};
    ghost use Rattle.field_machine.specs.declared.left.Left.TheVariants as left;
    ghost use Rattle.command_layout.specs.CommandRows.{command_rows};
    ghost use Rattle.command_codecs.specs.Places.{place_left, StandsAt};

    /// Before the codec id.
    pub fn first(total: u32, way: Way) -> CommandPlace
        ensures begins { place_left result ≡ left.Field 1 }
        ensures stands { StandsAt result (command_rows way total) }
    {
        CommandPlace {
            way,
            total,
            at: NextField::Codec,
        }
    }
}

impl Place for CommandPlace {
    ghost use Rattle.command_layout.specs.Values.{CommandValue};
    ghost use Rattle.command_codecs.specs.Places.{place_left, place_leaves, StandsAt, SaysNothing};

    type Head = ();

    ghost Value = { CommandValue };

    ghost says = { SaysNothing };

    ghost left_of = { place_left };

    ghost stands = { StandsAt };

    ghost leaves = { place_leaves };

    #[inline(always)]
    fn left(self) -> Left<()> {
        self.at.left()
    }
}

impl Cursor for CommandPlace {
    fn next(self, value: u64) -> Result<CommandPlace, FaultKind> {
        match self.at.next(self.way, self.total, value) {
            Ok(at) => Ok(CommandPlace { at, ..self }),
            Err(kind) => Err(kind),
        }
    }
}
