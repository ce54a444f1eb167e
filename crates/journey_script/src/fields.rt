ghost use Rattle.std.specs.Prelude.{◌≡◌, ◌+◌, ◌==◌, ◌≤◌, [], ◌∷◌, length, count_by, MatchOption};
ghost use Rattle.journey_script.specs.Lines.{fields_of, first_of, rest_of};

use std::marker::Model;
use text_lines::split_once;

/// The fields of a line that are left, from left to right.
#[derive(Drop)]
pub struct Fields<'a> {
    rest: Option<&'a [u8]>,
}

impl<'a> Model for Fields<'a> {
    ghost use Rattle.std.specs.Prelude.{List, ℕ};
    ghost use Rattle.journey_script.specs.FieldsLeft.{fields_left};

    ghost Value = { List (List ℕ) };

    ghost view = { λ f. fields_left f.rest };
}

impl<'a> Fields<'a> {
    /// All fields of a line, with one space between two.
    pub fn new(line: &'a [u8]) -> Self
        ensures { result ≡ fields_of line.entry.now }
    {
        Fields { rest: Some(line) }
    }

    /// The next field; an empty one where none is left.
    pub fn next(&mut self) -> &'a [u8]
        ensures field { result.now ≡ first_of self.old }
        ensures rest { self.new ≡ rest_of self.old }
    {
        let Some(rest) = self.rest else {
            return b"";
        };
        match cut(rest) {
            Some((field, rest)) => {
                self.rest = Some(rest);
                field
            }
            None => {
                self.rest = None;
                rest
            }
        }
    }

    /// How many are left.
    pub fn count(&self) -> usize
        ensures { result ≡ length self.now }
    {
        match self.rest {
            Some(rest) => count_of(rest),
            None => 0,
        }
    }

    /// Whether none is left.
    pub fn is_empty(&self) -> bool
        ensures { result ≡ (length self.now == 0) }
    {
        match self.rest {
            Some(_) => false,
            None => true,
        }
    }
}

// The first field of a line and the fields after it; None where there is one field alone.
fn cut(line: &[u8]) -> Option<(&[u8], &[u8])>
    ensures { MatchOption result (fields_of line.now ≡ line.now ∷ []) (λ p. fields_of line.now ≡ p.0.now ∷ fields_of p.1.now) }
{
    split_once(b' ', line)
}

fn count_of(line: &[u8]) -> usize
    ensures { result ≡ length (fields_of line.now) }
{
    spaces(line) + 1
}

fn spaces(line: &[u8]) -> usize
    ensures spaces { result ≡ count_by (λ b. b == 32) line.now }
    ensures few { result ≤ length line.now }
{
    line.iter().filter(|b| **b == b' ').count()
}
