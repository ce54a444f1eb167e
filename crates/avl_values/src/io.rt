ghost use Rattle.std.specs.Prelude.{◌≡◌, ◌<◌, ◌↔◌, IsSome, IfSome};
ghost use Rattle.avl_values.specs.Width.{limit};

use crate::width::Width;
use std::marker::Model;

/// An I/O element: an id, and a value of 1, 2, 4 or 8 bytes that fits its width. The default is id 0 with the value 0 in one
/// byte.
#[derive(Clone, Copy, Debug, PartialEq, Eq)]
pub struct Io {
    id: u16,
    width: Width,
    value: u64,
}

impl Model for Io {
    ghost use Rattle.std.specs.Prelude.{◌<◌};
    ghost use Rattle.avl_values.specs.IoElement.{IoElement};
    ghost use Rattle.avl_values.specs.Width.{limit};

    ghost Value = { IoElement };

    ghost view = { λ i. record { id = i.id; width = i.width; value = i.value } };

    ghost invariant = { λ i. i.value < limit i.width };

    ghost inverse = { λ e. record { id = e.id; width = e.width; value = e.value } };
}

impl Io {
    /// None exactly where the value doesn't fit the width.
    pub fn new(id: u16, width: Width, value: u64) -> Option<Io>
        ensures found { IsSome result ↔ (value < limit width) }
        ensures element { IfSome result (λ io. io ≡ record { id = id; width = width; value = value }) }
    {
        let fits = match width {
            Width::W1 => value <= 0xff,
            Width::W2 => value <= 0xffff,
            Width::W4 => value <= 0xffff_ffff,
            Width::W8 => true,
        };
        if fits {
            Some(Io { id, width, value })
        } else {
            None
        }
    }

    /// The AVL id of the element. Codec 8 spells ids up to 255 only.
    pub fn id(&self) -> u16
        ensures { result ≡ self.now.id }
    {
        self.id
    }

    /// The width of the value, in bytes: 1, 2, 4 or 8.
    pub fn width(&self) -> Width
        ensures { result ≡ self.now.width }
    {
        self.width
    }

    /// The value, which fits the width.
    pub fn value(&self) -> u64
        ensures value { result ≡ self.now.value }
        ensures fits { self.now.value < limit self.now.width }
    {
        self.value
    }
}

impl Default for Io {
    fn default() -> Io {
        Io {
            id: 0,
            width: Width::W1,
            value: 0,
        }
    }
}
