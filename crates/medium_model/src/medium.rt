ghost use Rattle.std.specs.Prelude.{◌≡◌, ◌⊎◌, ◌+◌, ◌-◌, ◌<◌, ◌≤◌, ◌^◌, min, length, take, drop, IfOk, OnOk, OnErr, IsErr, IsErrOf};
ghost use Rattle.avl_values.specs.Causes.{Rose};
ghost use Rattle.medium_model.specs.CallsLeft.{MayFail};
ghost use Rattle.medium_model.specs.Content.{after_write, after_sync};
ghost use Rattle.medium_model.specs.PowerLoss.{IsImage};
ghost use Rattle.medium_model.specs.State.{MediumState, Counted, IfTold, TornWrite, told};

use avl_values::Failed;

/// The greatest place up to which a medium can be made ready for writes.
pub const MAX_PLACE: u64 = 1 << 62;

/// Why a medium isn't ready for writes up to a place.
#[derive(Clone, Copy, Debug, PartialEq, Eq)]
pub enum ReserveError {
    /// The place is above 2^62, or the device failed. The count of faults rose.
    Failed,
    /// A growth of memory was refused. Nothing has changed.
    NoMemory,
}

/// Bytes that stay over a power loss: a flash, a file, or one in memory (this project's own model). Between two syncs a power
/// loss may leave anything of what was written since the first, and after a sync it leaves what a read gives.
///
/// A clause on the images after a call holds at each exit, also over a medium that fails from some call on. So it speaks of
/// a power loss at each moment inside the call.
pub trait Medium: Drop {
    /// What contracts see of it.
    ghost state: { Self → MediumState };

    /// How often it has failed. The count never falls, and stays at its type's greatest value. At every moment, what is read is
    /// one of the images that a power loss may leave.
    fn faults(&self) -> u64
        ensures count { result ≡ (state self.now).faults }
        ensures most { (state self.now).ready ≤ 2 ^ 62 }
        ensures image { IfTold (state self.now).content (λ c. IsImage c c.reads) };

    /// Makes it ready for writes up to a place. This is the call that takes memory, and it isn't counted among the calls
    /// that a power loss may meet.
    fn reserve(&mut self, to: u64) -> Result<(), ReserveError>
        ensures enough { OnOk result (to ≤ (state self.new).ready) }
        ensures above { 2 ^ 62 < to → IsErrOf result ReserveError.Failed }
        ensures failed { IsErrOf result ReserveError.Failed → (2 ^ 62 < to) ⊎ MayFail (state self.old).left }
        ensures cause { IsErrOf result ReserveError.Failed → Rose (state self.old).faults (state self.new).faults }
        ensures later { (state self.old).faults ≤ (state self.new).faults }
        ensures ready { (state self.old).ready ≤ (state self.new).ready }
        ensures most { (state self.new).ready ≤ 2 ^ 62 }
        ensures content { (state self.new).content ≡ (state self.old).content }
        ensures left { (state self.new).left ≡ (state self.old).left }
        ensures unreserved { IsErrOf result ReserveError.NoMemory → state self.new ≡ state self.old };

    /// How many bytes a read gives from place 0 on.
    fn len(&mut self) -> Result<u64, Failed>
        ensures len { IfOk result (λ n. IfTold (state self.old).content (λ c. n ≡ length c.reads)) }
        ensures content { (state self.new).content ≡ (state self.old).content }
        ensures counted { Counted 1 (state self.old) (state self.new) (IsErr result) };

    /// Reads the bytes at a place, fewer than asked only at the end.
    fn read(&mut self, at: u64, into: &mut [u8]) -> Result<usize, Failed>
        ensures bound { IfOk result (λ n. n ≤ length into.new) }
        ensures count { IfOk result (λ n. IfTold (state self.old).content (λ c. n ≡ min (length into.old) (length c.reads - at))) }
        ensures bytes { IfOk result (λ n. IfTold (state self.old).content (λ c. take n into.new ≡ take n (drop at c.reads))) }
        ensures content { (state self.new).content ≡ (state self.old).content }
        ensures counted { Counted 1 (state self.old) (state self.new) (IsErr result) };

    /// Writes bytes at a place, and fills a gap after the end with zero bytes. It takes no memory.
    fn write(&mut self, at: u64, from: &[u8]) -> Result<(), Failed>
        requires some { 0 < length from.now }
        requires ready { at + length from.now ≤ (state self.old).ready }
        ensures written { OnOk result ((state self.new).content ≡ told (after_write at from.now) (state self.old).content) }
        ensures torn { OnErr result (TornWrite at (length from.now) (state self.old).content (state self.new).content) }
        ensures counted { Counted 1 (state self.old) (state self.new) (IsErr result) };

    /// After it a power loss leaves what a read gives.
    fn sync(&mut self) -> Result<(), Failed>
        ensures durable { OnOk result ((state self.new).content ≡ told after_sync (state self.old).content) }
        ensures was_image { OnOk result (IfTold (state self.old).content (λ c. IsImage c c.reads)) }
        ensures unchanged { OnErr result ((state self.new).content ≡ (state self.old).content) }
        ensures counted { Counted 1 (state self.old) (state self.new) (IsErr result) };
}
