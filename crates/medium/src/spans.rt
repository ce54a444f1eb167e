ghost use Rattle.std.specs.Prelude.{◌≡◌, ◌+◌, ◌-◌, ◌<◌, ◌≤◌, ℕ, false, length, get_or, IsTrue};
ghost use Rattle.medium.specs.Buffer.{EndBy, HasMore, IsOutside, SetFrom};

use arrayvec::ArrayVec;

/// The places from the first one on, before the end.
#[derive(Clone, Copy, Debug, Default, PartialEq, Eq)]
pub struct Span {
    /// The first place.
    pub first: usize,
    /// The place after the last one.
    pub end: usize,
}

/// As many spans as are told apart: a whole batch of gates. The last one takes in what comes then.
pub type Spans = ArrayVec<Span, 256>;

// Whether the last of these spans ends at this place.
fn ends_at(spans: &[Span], place: usize) -> bool
    ensures { IsTrue result → 0 < length spans.now }
{
    spans.len() > 0 && spans[spans.len() - 1].end == place
}

// Makes the last span wider.
fn widen(spans: &mut Spans, span: Span)
    requires { 0 < length spans.old.items }
    ensures { HasMore span spans.old.items spans.new.items }
{
    // The proof takes from it that there are at most 256.
    let _most = spans.len();
    if let Some(last) = spans.pop() {
        spans.push(Span {
            first: last.first.min(span.first),
            end: last.end.max(span.end),
        });
    }
}

/// Adds a span. One that begins where the last one ends makes that longer.
pub fn add(spans: &mut Spans, span: Span)
    ensures { HasMore span spans.old.items spans.new.items }
{
    if spans.is_full() || ends_at(spans.as_slice(), span.first) {
        widen(spans, span);
        return;
    }
    spans.push(span);
}

/// Copies bytes to a place.
pub fn copy_to(into: &mut [u8], at: usize, from: &[u8])
    requires fits { at + length from.now ≤ length into.old }
    ensures { SetFrom 0 at (length from.now) (λ k. get_or from.now k 0) into.old into.new }
{
    into[at..at + from.len()].copy_from_slice(from);
}

/// Sets bytes from a place on.
pub fn fill_from(bytes: &mut [u8], at: usize, count: usize, byte: u8)
    requires fits { at + count ≤ length bytes.old }
    ensures { SetFrom 0 at count (λ _. byte) bytes.old bytes.new }
{
    bytes[at..at + count].fill(byte);
}

/// Sets or takes away the marks from a place on.
pub fn mark_from(marks: &mut [bool], at: usize, count: usize, mark: bool)
    requires fits { at + count ≤ length marks.old }
    ensures { SetFrom false at count (λ _. mark) marks.old marks.new }
{
    marks[at..at + count].fill(mark);
}

fn copy_span(into: &mut [u8], from: &[u8], first: usize, end: usize)
    requires fits { end ≤ length into.old }
    requires there { end ≤ length from.now }
    ensures { SetFrom 0 first (end - first) (λ k. get_or from.now (first + k) 0) into.old into.new }
{
    if first < end {
        copy_to(into, first, &from[first..end]);
    }
}

fn unmark_span(marks: &mut [bool], first: usize, end: usize)
    requires fits { end ≤ length marks.old }
    ensures { SetFrom false first (end - first) (λ _. false) marks.old marks.new }
{
    if first < end {
        mark_from(marks, first, end - first, false);
    }
}

/// Makes the first bytes the others, from which they differ only in these spans.
pub fn copy_spans(into: &mut [u8], from: &[u8], spans: &[Span])
    requires fits { EndBy (length into.old) spans.now }
    requires there { EndBy (length from.now) spans.now }
    requires outside { (k : ℕ) → IsOutside spans.now k → get_or into.old k 0 ≡ get_or from.now k 0 }
    ensures size { length into.new ≡ length into.old }
    ensures same { (k : ℕ) → get_or into.new k 0 ≡ get_or from.now k 0 }
{
    for i in 0..spans.len() {
        copy_span(into, from, spans[i].first, spans[i].end);
    }
}

/// Takes all marks away, which come only in these spans.
pub fn unmark(marks: &mut [bool], spans: &[Span])
    requires fits { EndBy (length marks.old) spans.now }
    requires outside { (k : ℕ) → IsOutside spans.now k → get_or marks.old k false ≡ false }
    ensures size { length marks.new ≡ length marks.old }
    ensures none { (k : ℕ) → get_or marks.new k false ≡ false }
{
    for i in 0..spans.len() {
        unmark_span(marks, spans[i].first, spans[i].end);
    }
}
