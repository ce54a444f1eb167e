//! A record walked part by part, with no look at what its fields say but counts and lengths.
ghost use Rattle.std.specs.Prelude.{◌≡◌, ◌+◌, ◌<◌, ◌≤◌, length, drop, MatchOption};
ghost use Rattle.avl_values.specs.Width.{bytes_of};
ghost use Rattle.layout.specs.Fields.{times};
ghost use Rattle.layout.specs.Rows.{Rows};
ghost use Rattle.record_layout.specs.RecordRows.{pair_rows, triple_rows};
ghost use Rattle.record_codecs.specs.Elements.{front_number, behind};
ghost use Rattle.record_codecs.specs.PartWalk.{HasNoEnd, EndsWith, IsPast};
ghost use Rattle.record_codecs.specs.RecordCursor.{Nothing, counted_with};

use avl_values::Width;
use layout::number;
use record_layout::Part;

/// A walk through a record: its total, the sum of its counts so far, and the bytes after the parts that are passed.
#[derive(Clone, Copy)]
pub struct PartWalk<'a> {
    pub total: u64,
    pub counted: u64,
    pub rest: &'a [u8],
}

/// The bytes after the first `n`; None where fewer are there.
#[inline(always)]
fn skip(bytes: &[u8], n: u64) -> Option<&[u8]>
    ensures { MatchOption result (length bytes.now < n) (λ rest. (n ≤ length bytes.now) × (rest.now ≡ drop n bytes.now)) }
{
    if n > bytes.len() as u64 {
        return None;
    }
    Some(&bytes[n as usize..])
}

/// The number in the first bytes, and the bytes after it; None where fewer are there.
#[inline(always)]
fn take_number(bytes: &[u8], width: Width) -> Option<(u64, &[u8])>
    ensures { MatchOption result (length bytes.now < bytes_of width) (λ taken. (bytes_of width ≤ length bytes.now) × (taken.0 ≡ front_number width bytes.now) × (taken.1.now ≡ behind width bytes.now)) }
{
    if let Width::W1 = width {
        let (byte, rest) = bytes.split_first()?;
        return Some((u64::from(*byte), rest));
    }
    let width = width.bytes() as usize;
    if width > bytes.len() {
        return None;
    }
    let (field, rest) = bytes.split_at(width);
    Some((number(field), rest))
}

/// The bytes after N pairs of id and value.
#[inline(always)]
fn skip_pairs(bytes: &[u8], count: u64, id: Width, value: Width) -> Option<&[u8]>
    ensures { (rows : Rows Nothing) → MatchOption result (HasNoEnd (times count (pair_rows id value) rows) bytes.now) (λ rest. EndsWith (times count (pair_rows id value) rows) bytes.now rows rest.now) }
{
    let size = count.checked_mul(u64::from(id.bytes() + value.bytes()))?;
    skip(bytes, size)
}

/// The bytes after N triples of id, length and as many bytes.
fn skip_triples(bytes: &[u8], count: u64, id: Width, length: Width) -> Option<&[u8]>
    ensures { (rows : Rows Nothing) → MatchOption result (HasNoEnd (times count (triple_rows id length) rows) bytes.now) (λ rest. EndsWith (times count (triple_rows id length) rows) bytes.now rows rest.now) }
{
    let mut rest = bytes;
    let mut left = count;
    while left > 0 {
        let behind_id = skip(rest, u64::from(id.bytes()))?;
        let (size, text) = take_number(behind_id, length)?;
        rest = skip(text, size)?;
        left -= 1;
    }
    Some(rest)
}

/// The sum of the counts with one more, which is at most the total, and at the last count the total.
#[inline(always)]
pub fn counted_with(total: u64, counted: u64, count: u64, left: &[Part]) -> Option<u64>
    ensures { result ≡ counted_with left.now total (counted + count) }
{
    let counted = counted.checked_add(count)?;
    let allowed = if left.is_empty() {
        counted == total
    } else {
        counted <= total
    };
    allowed.then_some(counted)
}

impl<'a> PartWalk<'a> {
    /// The walk after a part, before those that are left; None where the record ends or a rule fails in it.
    #[inline(always)]
    pub fn past(self, part: Part, left: &[Part]) -> Option<PartWalk<'a>>
        ensures { IsPast part left.now self.entry result }
    {
        match part {
            Part::Plain(_, width) => {
                let rest = skip(self.rest, u64::from(width.bytes()))?;
                Some(PartWalk { rest, ..self })
            }
            Part::Total(width) => {
                let (total, rest) = take_number(self.rest, width)?;
                Some(PartWalk {
                    total,
                    rest,
                    ..self
                })
            }
            Part::Pairs(width, id, value) => {
                let (count, pairs) = take_number(self.rest, width)?;
                let counted = counted_with(self.total, self.counted, count, left)?;
                let rest = skip_pairs(pairs, count, id, value)?;
                Some(PartWalk {
                    counted,
                    rest,
                    ..self
                })
            }
            Part::Triples(width, id, length) => {
                let (count, triples) = take_number(self.rest, width)?;
                let counted = counted_with(self.total, self.counted, count, left)?;
                let rest = skip_triples(triples, count, id, length)?;
                Some(PartWalk {
                    counted,
                    rest,
                    ..self
                })
            }
        }
    }
}
