ghost use Rattle.std.specs.Prelude.{◌≡◌, ◌≤◌, ◌^◌, length};
ghost use Rattle.std.specs.Iterator.{YieldsFirstBy, item_count};
ghost use Rattle.text_lines.specs.Lines.{content_lines, is_skipped};

use crate::cutting::first_line;
use std::marker::Model;

/// The most bytes of a script's or a capture's text, 2^24 (this project's own).
pub const LONGEST: usize = 0x100_0000;

/// A line that isn't skipped.
#[derive(Clone, Copy, Debug, PartialEq, Eq)]
pub struct ContentLine<'a> {
    /// From 1.
    pub number: u32,
    /// Without its end.
    pub text: &'a [u8],
}

/// The lines of a text that aren't skipped, one after the other. Contracts see it as those that are left.
#[derive(Drop)]
pub struct ContentLines<'a> {
    /// The number of the next line.
    number: u32,
    /// The text from that line on.
    rest: &'a [u8],
}

impl<'a> Model for ContentLines<'a> {
    ghost use Rattle.std.specs.Prelude.{ℕ, ◌+◌, ◌^◌, ◌≤◌, List, length};
    ghost use Rattle.std.specs.Str.Lines.{lines};
    ghost use Rattle.text_lines.specs.Lines.{content_from};

    ghost Value = { List (ℕ × List ℕ) };

    ghost view = { λ c. content_from c.number (lines c.rest.now) };

    // Each line has a byte at least, so that no number is too great.
    ghost invariant = { λ c. c.number + length c.rest.now ≤ 2 ^ 24 + 1 };
}

impl<'a> ContentLines<'a> {
    /// The lines of a text of at most `LONGEST` bytes, from its beginning.
    pub fn new(text: &'a [u8]) -> Self
        requires { length text.now ≤ 2 ^ 24 }
        ensures { result ≡ content_lines text.entry.now }
    {
        ContentLines {
            number: 1,
            rest: text,
        }
    }
}

impl<'a> Iterator for ContentLines<'a> {
    type Item = ContentLine<'a>;

    ghost next_gives = { YieldsFirstBy (λ line. (line.number, line.text.now)) (λ lines. lines) };

    ghost remaining = { item_count (λ lines. lines) };

    fn next(&mut self) -> Option<ContentLine<'a>> {
        while !self.rest.is_empty() {
            let (text, rest) = first_line(self.rest);
            let number = self.number;
            self.rest = rest;
            self.number += 1;
            if !is_skipped(text) {
                return Some(ContentLine { number, text });
            }
        }
        None
    }
}

fn is_skipped(line: &[u8]) -> bool
    ensures { result ≡ is_skipped line.now }
{
    match line {
        [] => true,
        [first, ..] => *first == b'#',
    }
}
