ghost use Rattle.std.specs.Prelude.{◌≡◌};
ghost use Rattle.avl_values.specs.Viewed.{records_viewed};
ghost use Rattle.acquisition.specs.Deciding.{decided};
ghost use Rattle.acquisition.specs.Elements.{ValuesFit};
ghost use Rattle.acquisition.specs.Sound.{AreRecordsOf};
ghost use Rattle.acquisition.specs.Watching.{powered_up};

use crate::firing::watches;
use crate::fix::Fix;
use crate::last_fix::LastFix;
use crate::settings::Settings;
use arrayvec::ArrayVec;
use avl_values::Rec;
use io_operands::Watch;
use std::marker::Model;

/// A device that acquires records, seen as its settings and what it remembers since power-up: the last fix that made a record,
/// and the last value of each I/O setting.
#[derive(Drop)]
pub struct Acquirer {
    settings: Settings,
    last: Option<LastFix>,
    watches: ArrayVec<Watch, 32>,
}

impl Model for Acquirer {
    ghost use Rattle.std.specs.Prelude.{◌≡◌};
    ghost use Rattle.acquisition.specs.Watching.{Acquiring};
    ghost use Rattle.acquisition.specs.Firing.{seen, watched_by};

    ghost Value = { Acquiring };

    ghost view = { λ a. record { settings = a.settings; watching = record { last = a.last; watched = seen a.watches.items } } };

    ghost invariant = { λ a. a.watches.items ≡ watched_by a.settings.ios (seen a.watches.items) };
}

impl Acquirer {
    /// Stands at power-up.
    pub fn new(settings: Settings) -> Acquirer
        ensures { result ≡ record { settings = settings; watching = powered_up } }
    {
        let watches = watches(&settings);
        Acquirer {
            settings,
            last: None,
            watches,
        }
    }

    /// The settings that it decides by.
    pub fn settings(&self) -> &Settings
        ensures { result.now ≡ self.now.settings }
    {
        &self.settings
    }

    /// Power comes again: the last fix and all last values are forgotten.
    pub fn power_up(&mut self)
        ensures { self.new ≡ record self.old { watching = powered_up } }
    {
        self.watches = watches(&self.settings);
        self.last = None;
    }

    /// The records that a fix makes, in order: one for each I/O setting that fires; where none does, one if there is no last fix or
    /// the fix differs enough from it. It takes no memory.
    pub fn fix(&mut self, fix: &Fix) -> ArrayVec<Rec, 32>
        requires { ValuesFit self.old.settings.ios fix.now.values.items }
        ensures records { records_viewed result.items ≡ (decided self.old.settings self.old.watching fix.now).records }
        ensures watching { self.new ≡ record self.old { watching = (decided self.old.settings self.old.watching fix.now).watching } }
        ensures sound { AreRecordsOf self.old.settings.codec (records_viewed result.items) }
    {
        let (fired, watches) = self
            .settings
            .fire(self.watches.as_slice(), fix.values.as_slice());
        let records = self.settings.records(self.last, fix, fired.as_slice());
        self.watches = watches;
        if !records.is_empty() {
            self.last = Some(LastFix::of(fix));
        }
        records
    }
}
