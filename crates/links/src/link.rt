ghost use Rattle.std.specs.Prelude.{◌≡◌, ◌<◌, ◌≤◌, true, [], length, take, IfOk, OnErr};
ghost use Rattle.avl_values.specs.Causes.{HasCause};
ghost use Rattle.links.specs.Links.{LinkState, Moves, IsLater, IsEmptyAtEnd};

use avl_values::Failed;

/// One end of a connection: bytes that come, and bytes that go.
pub trait Link: Drop {
    /// What contracts see of it.
    ghost state: { Self → LinkState };

    /// What further calls may do to it.
    ghost follows: { Self → Self → Type 0 };

    /// How often it has failed. The count never falls, and stays at its type's greatest value.
    fn faults(&self) -> u64
        ensures count { result ≡ (state self.now).faults };

    /// Takes the next bytes, puts them first into the slice, and says how many: into a slice that isn't empty 0 exactly at
    /// the end. `Failed` takes none, counts, and says nothing of what the slice holds.
    fn read(&mut self, into: &mut [u8]) -> Result<usize, Failed>
        ensures bound { IfOk result (λ n. n ≤ length into.new) }
        ensures took { IfOk result (λ n. Moves (take n into.new) [] (state self.old).told (state self.new).told) }
        ensures end { 0 < length into.old → IfOk result (λ n. IsEmptyAtEnd (state self.old) n) }
        ensures stays_ended { (state self.old).ended ≡ true → (state self.new).ended ≡ true }
        ensures failed { OnErr result (Moves [] [] (state self.old).told (state self.new).told) }
        ensures cause { HasCause (state self.old).faults (state self.new).faults result }
        ensures follows { follows self.old self.new };

    /// Writes the first of these bytes, at least one of any, and says how many. `Failed` writes none, and counts. A write may
    /// bring further bytes to read, as an answer does.
    fn write(&mut self, from: &[u8]) -> Result<usize, Failed>
        ensures bound { IfOk result (λ n. n ≤ length from.now) }
        ensures some { 0 < length from.now → IfOk result (λ n. 0 < n) }
        ensures wrote { IfOk result (λ n. Moves [] (take n from.now) (state self.old).told (state self.new).told) }
        ensures failed { OnErr result (Moves [] [] (state self.old).told (state self.new).told) }
        ensures cause { HasCause (state self.old).faults (state self.new).faults result }
        ensures follows { follows self.old self.new };

    /// No calls at all are further calls, too.
    ghost follows_none: { (link : Self) → follows link link };

    /// Further calls after further calls.
    ghost follows_then: { (a b c : Self) → follows a b → follows b c → follows a c };

    /// Whatever calls do, bytes only come after those that were told, and the count never falls.
    ghost follows_later: { (a b : Self) → follows a b → IsLater (state a) (state b) };
}
