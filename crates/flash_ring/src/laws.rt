//! The laws of what is held, each as the contract of a function that does nothing. Layers above cite the lemmas that prove them,
//! over plain lists of slots.
ghost use Rattle.std.specs.Prelude.{◌≡◌, ◌⊎◌, ◌+◌, ◌*◌, ◌≤◌, ◌++◌, ◌∷◌, ℕ, List, [], Option, false, true, drop, length, map, replicate, take};
ghost use Rattle.std.specs.List.{Contains};
ghost use Rattle.avl_values.specs.Record.{Record};
ghost use Rattle.avl_values.specs.declared.order.Order.{Order};
ghost use Rattle.avl_values.specs.declared.order.Order.TheVariants.{Oldest};
ghost use Rattle.flash_ring.specs.Entries.{entries_of, held_of, rec_of, selected, with_room};
ghost use Rattle.flash_ring.specs.Held.{AreBelow, AreSound, Held, IsPart, closed_all, is_full, next_of, put_in};
ghost use Rattle.flash_ring.specs.Images.{AreDistinct, AreOpen, MayClose};
ghost use Rattle.flash_ring.specs.Records.{HasDistinctSeqs, IsBatch, recs_in, without};
ghost use Rattle.flash_ring.specs.Slot.{slots_of};

/// A record put in above all sequences goes after those that are held.
pub fn put_goes_last()
    ensures { (slots : List (Option Held)) → (h : Held) → is_full slots ≡ false → AreBelow h.seq slots → held_of (put_in slots h) ≡ held_of slots ++ h.rec ∷ [] }
{}

/// Making room in a full ring drops the first of those that are held.
pub fn room_drops_the_oldest()
    ensures { (slots : List (Option Held)) → is_full slots ≡ true → held_of (with_room slots) ≡ drop 1 (held_of slots) }
{}

/// Closing slots takes their records out, and as many fewer are held.
pub fn closing_takes_out()
    ensures records { (ks : List ℕ) → (slots : List (Option Held)) → held_of (closed_all ks slots) ≡ map rec_of (without ks (entries_of Oldest slots)) }
    ensures count { (ks : List ℕ) → (slots : List (Option Held)) → AreOpen ks slots → AreDistinct ks → length (held_of (closed_all ks slots)) + length ks ≡ length (held_of slots) }
{}

/// Where some of a batch are closed, what is held is a part of what was, in order; each record that is gone was one of the batch; and none is held that wasn't.
pub fn closing_some_leaves_a_part()
    ensures part { (ks : List ℕ) → (before : List (Option Held)) → (left : List (Option Held)) → MayClose ks before left → IsPart (held_of left) (held_of before) }
    ensures kept { (ks : List ℕ) → (before : List (Option Held)) → (left : List (Option Held)) → MayClose ks before left → (r : Record) → Contains (held_of before) r → Contains (held_of left) r ⊎ Contains (recs_in before ks) r }
    ensures no_more { (ks : List ℕ) → (before : List (Option Held)) → (left : List (Option Held)) → MayClose ks before left → (r : Record) → Contains (held_of left) r → Contains (held_of before) r }
{}

/// A selection is a front of the open slots in its order, and the oldest, closed, leaves what is held after as many records.
pub fn selection_is_a_front()
    ensures front { (order : Order) → (room : ℕ) → (slots : List (Option Held)) → recs_in slots (selected order room slots) ≡ map rec_of (take (length (selected order room slots)) (entries_of order slots)) }
    ensures released { (room : ℕ) → (slots : List (Option Held)) → held_of (closed_all (selected Oldest room slots) slots) ≡ drop (length (selected Oldest room slots)) (held_of slots) }
{}

/// A selection is of one codec, has at most 255 slots, and its record bytes fit the room.
pub fn selection_is_a_batch()
    ensures batch { (order : Order) → (room : ℕ) → (slots : List (Option Held)) → IsBatch room (recs_in slots (selected order room slots)) }
    ensures few { (order : Order) → (room : ℕ) → (slots : List (Option Held)) → length (selected order room slots) ≤ 255 }
{}

/// A selection is empty where nothing is held, and with room for each record nowhere else.
pub fn nothing_is_selected_where_nothing_is_held()
    ensures empty { (order : Order) → (room : ℕ) → (slots : List (Option Held)) → held_of slots ≡ [] → selected order room slots ≡ [] }
    ensures nowhere_else { (order : Order) → (room : ℕ) → (slots : List (Option Held)) → AreSound slots → 255 ≤ room → selected order room slots ≡ [] → held_of slots ≡ [] }
{}

/// The next sequence is the least number above all that are held; a put raises it by one, and closing never does.
pub fn next_is_above_all()
    ensures least { (n : ℕ) → (slots : List (Option Held)) → AreBelow n slots → next_of slots ≤ n }
    ensures put { (slots : List (Option Held)) → (h : Held) → is_full slots ≡ false → next_of slots ≤ h.seq → next_of (put_in slots h) ≡ h.seq + 1 }
    ensures closed { (ks : List ℕ) → (before : List (Option Held)) → (left : List (Option Held)) → MayClose ks before left → next_of left ≤ next_of before }
{}

/// In a formatted ring no two open slots have one sequence, and by each call it stays so.
pub fn sequences_stay_distinct()
    ensures formatted { (n : ℕ) → HasDistinctSeqs (slots_of n (replicate (272 * n) 0)) }
    ensures put { (slots : List (Option Held)) → (h : Held) → AreBelow h.seq slots → HasDistinctSeqs slots → HasDistinctSeqs (put_in slots h) }
    ensures closed { (ks : List ℕ) → (before : List (Option Held)) → (left : List (Option Held)) → MayClose ks before left → HasDistinctSeqs before → HasDistinctSeqs left }
    ensures room { (slots : List (Option Held)) → HasDistinctSeqs slots → HasDistinctSeqs (with_room slots) }
{}
