//! The records of a data body, one by one.
ghost use Rattle.std.specs.Prelude.{◌≡◌};
ghost use Rattle.std.specs.Iterator.{YieldsFirstRef, item_count};
ghost use Rattle.record_layout.specs.RecordsOf.{records_in};
ghost use Rattle.record_codecs.specs.Views.{records_left};

use crate::record::front_record;
use avl_values::Codec;

/// The records of a data body, each as a slice of the body, in its order.
#[derive(Clone, Copy)]
pub struct Records<'a> {
    codec: Codec,
    left: u8,
    rest: &'a [u8],
}

impl<'a> Records<'a> {
    /// N records at the front of these bytes.
    pub(crate) fn new(codec: Codec, left: u8, rest: &'a [u8]) -> Records<'a>
        ensures { records_left result ≡ records_in codec left rest.now }
    {
        Records { codec, left, rest }
    }
}

impl<'a> Iterator for Records<'a> {
    type Item = &'a [u8];

    ghost next_gives = { YieldsFirstRef records_left };

    ghost remaining = { item_count records_left };

    fn next(&mut self) -> Option<&'a [u8]> {
        if self.left == 0 {
            return None;
        }
        self.left -= 1;
        let length = front_record(self.codec, self.rest).unwrap_or(0);
        let (record, rest) = self.rest.split_at(length);
        self.rest = rest;
        Some(record)
    }
}
