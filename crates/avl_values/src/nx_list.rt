ghost use Rattle.std.specs.Prelude.{◌≡◌, ◌<◌, ◌≤◌, ◌+◌, ◌↔◌, [], ◌∷◌, ◌++◌, length, slice_index_or, sum_by, IsTrue};
ghost use Rattle.std.specs.Bool.{OnFalse, OnTrue};
ghost use Rattle.avl_values.specs.NxElements.{nx_size};

use arrayvec::ArrayVec;
use std::marker::Model;

/// A list of elements of any length, each an id and bytes. Their room in a record, 4 bytes and its own for each element, is
/// at most 217 bytes, since a record has at most 255.
#[derive(Drop)]
pub struct NxList {
    heads: ArrayVec<(u16, u8), 54>,
    bytes: ArrayVec<u8, 217>,
}

impl Model for NxList {
    ghost use Rattle.std.specs.Prelude.{ℕ, ◌≡◌, ◌≤◌, ◌+◌, ◌*◌, List, length, sum_by};
    ghost use Rattle.avl_values.specs.NxElements.{nx_elements};

    ghost Value = { List (ℕ × List ℕ) };

    ghost view = { λ l. nx_elements l.heads.items l.bytes.items };

    ghost invariant = { λ l. (sum_by (λ h. h.1) l.heads.items ≡ length l.bytes.items) × (4 * length l.heads.items + length l.bytes.items ≤ 217) };
}

impl NxList {
    /// No element yet.
    pub fn new() -> NxList
        ensures { result ≡ [] }
    {
        NxList {
            heads: ArrayVec::new(),
            bytes: ArrayVec::new(),
        }
    }

    /// Adds an element at the end; false, with nothing changed, exactly where the room of all elements would pass 217 bytes.
    pub fn push(&mut self, id: u16, bytes: &[u8]) -> bool
        ensures fits { IsTrue result ↔ (nx_size self.old + (4 + length bytes.now) ≤ 217) }
        ensures added { OnTrue result (self.new ≡ self.old ++ (id, bytes.now) ∷ []) }
        ensures unchanged { OnFalse result (self.new ≡ self.old) }
    {
        let used = 4 * self.heads.len() + self.bytes.len();
        if used + 4 > 217 || bytes.len() > 217 - (used + 4) {
            return false;
        }
        self.heads.push((id, bytes.len() as u8));
        let _added = self.bytes.try_extend_from_slice(bytes);
        true
    }

    /// How many elements are in it.
    pub fn len(&self) -> usize
        ensures { result ≡ length self.now }
    {
        self.heads.len()
    }

    /// The AVL id of the element at a place, counted from 0.
    pub fn id_at(&self, i: usize) -> u16
        requires { i < length self.now }
        ensures { result ≡ (slice_index_or self.now i (0, [])).0 }
    {
        self.heads.as_slice()[i].0
    }

    /// The value of the element at a place, counted from 0.
    pub fn bytes_at(&self, i: usize) -> &[u8]
        requires { i < length self.now }
        ensures { result.now ≡ (slice_index_or self.now i (0, [])).1 }
    {
        let heads = self.heads.as_slice();
        let start = total_length(&heads[..i]);
        let end = start + heads[i].1 as usize;
        &self.bytes.as_slice()[start..end]
    }
}

/// The sum of the lengths.
fn total_length(heads: &[(u16, u8)]) -> usize
    requires { sum_by (λ h. h.1) heads.now ≤ 217 }
    ensures { result ≡ sum_by (λ h. h.1) heads.now }
{
    let mut total = 0;
    for (_, length) in heads {
        total += *length as usize;
    }
    total
}
