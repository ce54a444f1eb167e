ghost use Rattle.std.specs.Prelude.{◌≡◌, ◌<◌, ◌-◌, ◌^◌, IfOk, OnErr};
ghost use Rattle.avl_values.specs.Causes.{HasCause};
ghost use Rattle.doors.specs.Doors.{DoorState, Gives, GivesNone, IsUnused, TakesBack};

use avl_values::Failed;
use links::Link;

/// Where a worker's connections come in.
pub trait Door: Drop {
    type L: Link;

    /// What contracts see of it.
    ghost state: { Self → DoorState Self.L };

    /// How often accepting failed. The count never falls, and stays at its type's greatest value.
    fn faults(&self) -> u64
        ensures count { result ≡ (state self.now).faults };

    /// How many links came back that had failed.
    fn link_faults(&self) -> u64
        ensures count { result ≡ (state self.now).link_faults };

    /// Waits for a connection, and gives the first of the links that come: one that was not used, and that is out then. `Failed`
    /// counts, and gives none.
    fn accept(&mut self) -> Result<Self::L, Failed>
        ensures gives { IfOk result (λ link. Gives (state self.old) link (state self.new)) }
        ensures out { IfOk result (λ _. 0 < (state self.new).out) }
        ensures unused { IfOk result (λ link. IsUnused (Self.L.state link)) }
        ensures failed { OnErr result (GivesNone (state self.old) (state self.new)) }
        ensures cause { HasCause (state self.old).faults (state self.new).faults result };

    /// Takes back a link that is out, counts it where it has failed, and closes it. It takes no memory.
    fn done(&mut self, link: Self::L)
        requires out { 0 < (state self.old).out }
        requires count { (state self.old).link_faults < 2 ^ 64 - 1 }
        ensures back { TakesBack (state self.old) link (Self.L.state link).faults (state self.new) };
}
