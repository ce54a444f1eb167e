//! Which settings fire at a fix.
ghost use Rattle.std.specs.Prelude.{◌≡◌, ◌≤◌, [], length};
ghost use Rattle.acquisition.specs.Firing.{fired, remembered, seen, watched_by};

use crate::settings::Settings;
use arrayvec::ArrayVec;
use io_operands::{IoSetting, Watch};

/// The settings that fire at these values, in their order, and the watches, which remember the values.
pub fn fired(watches: &[Watch], values: &[u64]) -> (ArrayVec<IoSetting, 32>, ArrayVec<Watch, 32>)
    requires same { length watches.now ≡ length values.now }
    requires few { length watches.now ≤ 32 }
    ensures fired { result.0.items ≡ fired watches.now values.now }
    ensures remembers { result.1.items ≡ remembered watches.now values.now }
{
    let mut fired = ArrayVec::new();
    let mut after = ArrayVec::new();
    for i in 0..watches.len() {
        let mut watch = watches[i];
        if watch.fired(values[i]) {
            fired.push(watch.setting());
        }
        after.push(watch);
    }
    (fired, after)
}

/// A watch for each setting, which has seen no value yet.
pub fn watches(settings: &Settings) -> ArrayVec<Watch, 32>
    ensures watched { result.items ≡ watched_by settings.now.ios [] }
    ensures seen { seen result.items ≡ [] }
{
    let mut out = ArrayVec::new();
    for s in settings.ios.as_slice() {
        out.push(Watch::new(*s));
    }
    out
}
