//! The records that a tracker gives up within one call.
ghost use Rattle.std.specs.Prelude.{◌≡◌, []};
ghost use Rattle.avl_values.specs.Viewed.{record_of, records_viewed};

use avl_values::{Failed, Rec};
use std::alloc::Global;
use tracker_session::Losses;

/// A list of lost records in memory. It fails only where memory is refused.
#[derive(Drop)]
pub struct Lost {
    pub records: Vec<Rec>,
    faults: u64,
}

impl Lost {
    /// The empty list. It takes no memory.
    pub fn new(alloc: Global) -> Lost
        ensures { records_viewed result.records.items ≡ [] }
    {
        Lost {
            records: Vec::new(alloc),
            faults: 0,
        }
    }
}

impl Losses for Lost {
    ghost use Rattle.std.specs.Prelude.{Some};
    ghost use Rattle.avl_values.specs.Viewed.{records_viewed};

    ghost state = { λ l. record { listed = Some (records_viewed l.records.items); faults = l.faults } };

    fn faults(&self) -> u64 {
        self.faults
    }

    fn list(&mut self, rec: &Rec) -> Result<(), Failed> {
        if self.records.push(rec.copy()).is_err() {
            self.faults = self.faults.saturating_add(1);
            return Err(Failed);
        }
        Ok(())
    }
}
