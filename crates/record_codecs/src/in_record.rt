//! Where in a record the next field stands.
ghost use Rattle.std.specs.Prelude.{◌≡◌, ◌≤◌, ◌+◌, ℕ, List, length, drop, Some, IfOk};
ghost use Rattle.layout.specs.Fields.{times};
ghost use Rattle.field_machine.specs.Places.{Reads};
ghost use Rattle.record_layout.specs.RecordRows.{lone_record, pair_rows, triple_rows};
ghost use Rattle.record_layout.specs.Table.{parts_of};
ghost use Rattle.record_codecs.specs.RecordCursor.{rows_in, rows_from, parts_left, counted_with, first_width_of, width_in, weight_in, weight_from, FollowsIn};

use crate::part_walk::counted_with;
use avl_values::{Codec, FaultKind, Width};
use record_layout::{Field, Part, parts};

/// A record: its codec, the part after the one that is read, its total, and the sum of its counts so far.
#[derive(Clone, Copy)]
pub struct RecordState {
    pub codec: Codec,
    pub part: usize,
    pub total: u64,
    pub counted: u64,
}

/// N pairs after the one that is read, and their widths.
#[derive(Clone, Copy)]
pub struct PairsLeft {
    pub left: u64,
    pub id: Width,
    pub value: Width,
}

/// N triples after the one that is read, and their widths.
#[derive(Clone, Copy)]
pub struct TriplesLeft {
    pub left: u64,
    pub id: Width,
    pub length: Width,
}

/// The next field of a record.
#[derive(Clone, Copy)]
pub enum InRecord {
    Part(RecordState, Part),
    Id(RecordState, PairsLeft),
    Value(RecordState, PairsLeft),
    TextId(RecordState, TriplesLeft),
    TextLength(RecordState, TriplesLeft),
    Text(RecordState, TriplesLeft, u64),
}

impl RecordState {
    /// The first field of the parts that are left, if any are.
    #[tactic(auto, unfolding(record_layout::specs::RecordRows::parts_rows))]
    #[inline(always)]
    fn next_part(self) -> Option<InRecord>
        ensures rows { rows_from result ≡ parts_left self }
        ensures turns { weight_from result ≡ 0 }
    {
        let part = parts(self.codec).get(self.part)?;
        Some(InRecord::Part(
            RecordState {
                part: self.part + 1,
                ..self
            },
            *part,
        ))
    }

    /// The next pair, or the next part.
    #[inline(always)]
    fn next_pair(self, pairs: PairsLeft) -> Option<InRecord>
        ensures rows { rows_from result ≡ times pairs.left (pair_rows pairs.id pairs.value) (parts_left self) }
        ensures turns { weight_from result ≡ 0 }
    {
        if pairs.left == 0 {
            self.next_part()
        } else {
            Some(InRecord::Id(
                self,
                PairsLeft {
                    left: pairs.left - 1,
                    ..pairs
                },
            ))
        }
    }

    /// The next triple, or the next part.
    #[inline(always)]
    fn next_triple(self, triples: TriplesLeft) -> Option<InRecord>
        ensures rows { rows_from result ≡ times triples.left (triple_rows triples.id triples.length) (parts_left self) }
        ensures turns { weight_from result ≡ 0 }
    {
        if triples.left == 0 {
            self.next_part()
        } else {
            Some(InRecord::TextId(
                self,
                TriplesLeft {
                    left: triples.left - 1,
                    ..triples
                },
            ))
        }
    }

    /// The sum of the counts with one more, which is at most the total, and at the last count the total.
    #[inline(always)]
    fn counted_with(self, count: u64) -> Option<u64>
        ensures { result ≡ counted_with (drop self.part (parts_of self.codec)) self.total (self.counted + count) }
    {
        let left = parts(self.codec).get(self.part..).unwrap_or(&[]);
        counted_with(self.total, self.counted, count, left)
    }

    /// What follows a part's first field.
    #[inline(always)]
    fn after_part(self, part: Part, value: u64) -> Result<Option<InRecord>, FaultKind>
        ensures follows { (field : List ℕ) → length field ≡ first_width_of part → Reads field value → FollowsIn (rows_in (InRecord.Part self part)) field result }
        ensures turns { IfOk result (λ next. weight_from next ≡ 0) }
    {
        match part {
            Part::Plain(_, _) => Ok(self.next_part()),
            Part::Total(_) => Ok(RecordState {
                total: value,
                ..self
            }
            .next_part()),
            Part::Pairs(_, id, width) => match self.counted_with(value) {
                None => Err(FaultKind::TotalMismatch),
                Some(counted) => Ok(RecordState { counted, ..self }.next_pair(PairsLeft {
                    left: value,
                    id,
                    value: width,
                })),
            },
            Part::Triples(_, id, length) => match self.counted_with(value) {
                None => Err(FaultKind::TotalMismatch),
                Some(counted) => Ok(RecordState { counted, ..self }.next_triple(TriplesLeft {
                    left: value,
                    id,
                    length,
                })),
            },
        }
    }
}

/// The width of a part's first field.
#[inline(always)]
fn first_width(part: Part) -> u64
    ensures { result ≡ first_width_of part }
{
    let width = match part {
        Part::Plain(_, width) | Part::Total(width) => width,
        Part::Pairs(count, _, _) | Part::Triples(count, _, _) => count,
    };
    u64::from(width.bytes())
}

impl InRecord {
    /// A record's first field, its time.
    #[tactic(auto, unfolding(record_layout::specs::RecordRows::parts_rows))]
    #[inline(always)]
    pub fn first(codec: Codec) -> InRecord
        ensures rows { rows_in result ≡ lone_record codec }
        ensures turns { weight_in result ≡ 0 }
    {
        let record = RecordState {
            codec,
            part: 1,
            total: 0,
            counted: 0,
        };
        InRecord::Part(record, Part::Plain(Field::Time, Width::W8))
    }

    /// The width of the field.
    #[inline(always)]
    pub fn width(self) -> u64
        ensures { result ≡ width_in self }
    {
        match self {
            InRecord::Part(_, part) => first_width(part),
            InRecord::Id(_, pairs) => u64::from(pairs.id.bytes()),
            InRecord::Value(_, pairs) => u64::from(pairs.value.bytes()),
            InRecord::TextId(_, triples) => u64::from(triples.id.bytes()),
            InRecord::TextLength(_, triples) => u64::from(triples.length.bytes()),
            InRecord::Text(_, _, length) => length,
        }
    }

    /// What follows a field of this value: the next field, the record's end, or the rule that the field breaks.
    #[inline(always)]
    pub fn next(self, value: u64) -> Result<Option<InRecord>, FaultKind>
        ensures follows { (field : List ℕ) → length field ≡ width_in self → Reads field value → FollowsIn (rows_in self) field result }
        ensures turns { IfOk result (λ next. weight_from next + weight_in self ≤ 1) }
    {
        match self {
            InRecord::Part(record, part) => record.after_part(part, value),
            InRecord::Id(record, pairs) => Ok(Some(InRecord::Value(record, pairs))),
            InRecord::Value(record, pairs) => Ok(record.next_pair(pairs)),
            InRecord::TextId(record, triples) => Ok(Some(InRecord::TextLength(record, triples))),
            InRecord::TextLength(record, triples) => Ok(Some(InRecord::Text(
                record, triples, value,
            ))),
            InRecord::Text(record, triples, _) => Ok(record.next_triple(triples)),
        }
    }
}
