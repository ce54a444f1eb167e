//! The I/O elements of a record, one by one.
ghost use Rattle.std.specs.Prelude.{◌≡◌, ◌<◌, [], take, drop};
ghost use Rattle.std.specs.Bool.{OnFalse, OnTrue};
ghost use Rattle.std.specs.Iterator.{YieldsFirst, YieldsFirstBy, item_count};
ghost use Rattle.avl_values.specs.Width.{bytes_of, limit};
ghost use Rattle.layout.specs.Fields.{number as number_of};
ghost use Rattle.record_codecs.specs.Elements.{all_widths, groups_in, behind_groups, nx_of};
ghost use Rattle.record_codecs.specs.Views.{ios_left, nx_left};

use avl_values::{Codec, Io, Width};
use layout::number;
use record_layout::{count_width, id_width};

/// The first bytes, N where they are there, and the others.
pub fn split_front(bytes: &[u8], n: usize) -> (&[u8], &[u8])
    ensures front { result.0.now ≡ take n bytes.now }
    ensures back { result.1.now ≡ drop n bytes.now }
{
    if n < bytes.len() {
        bytes.split_at(n)
    } else {
        (bytes, &[])
    }
}

/// The number in the first bytes, and the bytes after it.
pub fn split_number(bytes: &[u8], width: Width) -> (u64, &[u8])
    ensures value { result.0 ≡ number_of (take (bytes_of width) bytes.now) }
    ensures fits { result.0 < limit width }
    ensures back { result.1.now ≡ drop (bytes_of width) bytes.now }
{
    let (field, rest) = split_front(bytes, width.bytes() as usize);
    (number(field), rest)
}

/// The I/O elements of 1, 2, 4 and 8 bytes of a record, in its order.
#[derive(Clone, Copy)]
pub struct Ios<'a> {
    codec: Codec,
    width: Width,
    left: u64,
    groups: &'static [Width],
    rest: &'a [u8],
}

const WIDTHS: [Width; 4] = [Width::W1, Width::W2, Width::W4, Width::W8];

impl<'a> Ios<'a> {
    /// The elements of the groups at the front of these bytes.
    pub(crate) fn new(codec: Codec, rest: &'a [u8]) -> Ios<'a>
        ensures { ios_left result ≡ groups_in codec all_widths rest.now }
    {
        Ios {
            codec,
            width: Width::W1,
            left: 0,
            groups: &WIDTHS,
            rest,
        }
    }

    /// Goes past groups that have no more elements; false where no other group is left.
    fn find_group(&mut self) -> bool
        ensures same { ios_left self.old ≡ ios_left self.new }
        ensures found { OnTrue result (0 < self.new.left) }
        ensures none { OnFalse result (ios_left self.new ≡ []) }
    {
        'groups: while self.left == 0 {
            match self.groups.split_first() {
                None => return false,
                Some((width, groups)) => {
                    let (left, rest) = split_number(self.rest, count_width(self.codec));
                    *self = Ios {
                        codec: self.codec,
                        width: *width,
                        left,
                        groups,
                        rest,
                    };
                }
            }
        }
        true
    }
}

/// The element of an id and a value that fits its width.
fn element(id: u16, width: Width, value: u64) -> Io
    requires { value < limit width }
    ensures { result ≡ record { id = id; width = width; value = value } }
{
    Io::new(id, width, value).unwrap()
}

impl Iterator for Ios<'_> {
    type Item = Io;

    ghost next_gives = { YieldsFirst ios_left };

    ghost remaining = { item_count ios_left };

    fn next(&mut self) -> Option<Io> {
        if !self.find_group() {
            return None;
        }
        let (id, rest) = split_number(self.rest, id_width(self.codec));
        let (value, rest) = split_number(rest, self.width);
        self.left -= 1;
        self.rest = rest;
        Some(element(id as u16, self.width, value))
    }
}

/// The bytes after the groups at the front.
pub fn after_groups(codec: Codec, bytes: &[u8]) -> &[u8]
    ensures { result.now ≡ behind_groups codec all_widths bytes.now }
{
    let mut rest = bytes;
    for width in &WIDTHS {
        let (count, behind) = split_number(rest, count_width(codec));
        let size = count * u64::from(id_width(codec).bytes() + width.bytes());
        rest = split_front(behind, size as usize).1;
    }
    rest
}

/// The I/O elements of any length of a record, in its order: ids, and bytes as slices of the record.
#[derive(Clone, Copy)]
pub struct Nxs<'a> {
    left: u64,
    rest: &'a [u8],
}

impl<'a> Nxs<'a> {
    /// The elements of any length at the front of these bytes. Only Codec 8 Extended has them.
    pub(crate) fn new(codec: Codec, bytes: &'a [u8]) -> Nxs<'a>
        ensures { nx_left result ≡ nx_of codec bytes.now }
    {
        match codec {
            Codec::C8E => {
                let (left, rest) = split_number(bytes, Width::W2);
                Nxs { left, rest }
            }
            Codec::C8 | Codec::C16 => Nxs {
                left: 0,
                rest: bytes,
            },
        }
    }
}

impl<'a> Iterator for Nxs<'a> {
    type Item = (u16, &'a [u8]);

    ghost next_gives = { YieldsFirstBy (λ item. (item.0, item.1.now)) nx_left };

    ghost remaining = { item_count nx_left };

    fn next(&mut self) -> Option<(u16, &'a [u8])> {
        if self.left == 0 {
            return None;
        }
        let (id, rest) = split_number(self.rest, Width::W2);
        let (length, rest) = split_number(rest, Width::W2);
        let (bytes, rest) = split_front(rest, length as usize);
        self.left -= 1;
        self.rest = rest;
        Some((id as u16, bytes))
    }
}
