ghost use Rattle.std.specs.Prelude.{◌≡◌, OnErr, OnOk};
ghost use Rattle.avl_values.specs.Causes.{HasCause};
ghost use Rattle.avl_values.specs.Viewed.{record_of};
ghost use Rattle.tracker_session.specs.Losses.{LossesState, with_loss};

use avl_values::{Failed, Rec};

/// Where a tracker lists each record that it gives up, before the record's slot is closed (this project's own).
pub trait Losses {
    /// What contracts see of it.
    ghost state: { Self → LossesState };

    /// How often it has failed. The count never falls, and stays at its type's greatest value.
    fn faults(&self) -> u64
        ensures { result ≡ (state self.now).faults };

    /// Lists a record after those that were listed. `Failed` lists nothing, and counts.
    fn list(&mut self, rec: &Rec) -> Result<(), Failed>
        ensures listed { OnOk result ((state self.new).listed ≡ with_loss (record_of rec.now) (state self.old).listed) }
        ensures failed { OnErr result ((state self.new).listed ≡ (state self.old).listed) }
        ensures cause { HasCause (state self.old).faults (state self.new).faults result };
}
