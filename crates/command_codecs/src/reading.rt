//! A place in a command's body, and what the command has said before it.
use crate::cursor::NextField;
use crate::hearing::{Said, text_heard};
use avl_values::FaultKind;
use command_layout::Way;
use field_machine::{Left, Place, Reading};
use layout::number;

/// What a whole command has said, and how long its text is.
#[derive(Clone, Copy)]
pub struct Heard {
    pub said: Said,
    pub text: u32,
}

/// Where the next field stands, and what those before it have said.
#[derive(Clone, Copy)]
pub struct Hearing {
    way: Way,
    total: u32,
    at: NextField,
    said: Said,
    text: u32,
}

impl Hearing {
    ghost use Rattle.command_layout.specs.CommandRows.{command_rows};
    ghost use Rattle.command_codecs.specs.Reading.{HearsAt};

    /// Before the codec id.
    pub fn first(total: u32, way: Way) -> Hearing
        ensures { HearsAt result (command_rows way total) }
    {
        Hearing {
            way,
            total,
            at: NextField::Codec,
            said: Said::nothing(),
            text: 0,
        }
    }
}

impl Place for Hearing {
    ghost use Rattle.command_layout.specs.Values.{CommandValue};
    ghost use Rattle.command_codecs.specs.Reading.{hearing_left, hearing_leaves, HearsAt, SaysHeard};

    type Head = Heard;

    ghost Value = { CommandValue };

    ghost says = { SaysHeard };

    ghost left_of = { hearing_left };

    ghost stands = { HearsAt };

    ghost leaves = { hearing_leaves };

    fn left(self) -> Left<Heard> {
        match self.at.left() {
            Left::Field(width) => Left::Field(width),
            Left::Nothing(_) => Left::Nothing(Heard {
                said: self.said,
                text: self.text,
            }),
        }
    }
}

impl Reading for Hearing {
    fn read(self, field: &[u8]) -> Result<Hearing, FaultKind> {
        let value = number(field);
        match self.at.next(self.way, self.total, value) {
            Ok(at) => Ok(Hearing {
                at,
                said: self.said.heard(self.at, value),
                text: text_heard(self.at, self.text),
                ..self
            }),
            Err(kind) => Err(kind),
        }
    }
}
