//! The I/O elements of a record: one for each setting, with its value now.
ghost use Rattle.std.specs.Prelude.{◌≡◌, ◌<◌, ◌≤◌, ◌↔◌, length, IsSome, IfSome, IsTrue};
ghost use Rattle.avl_values.specs.Width.{limit};
ghost use Rattle.acquisition.specs.Elements.{ValuesFit, element, elements, width_of};

use arrayvec::ArrayVec;
use avl_values::{Io, Width};
use io_operands::IoSetting;

/// The width of a checked setting's values.
fn width(setting: &IoSetting) -> Width
    ensures { result ≡ width_of setting.now }
{
    Width::from_bytes(setting.width).unwrap_or(Width::W1)
}

/// None exactly where the value doesn't fit its setting's width.
fn element(setting: &IoSetting, value: u64) -> Option<Io>
    ensures found { IsSome result ↔ (value < limit (width_of setting.now)) }
    ensures element { IfSome result (λ io. io ≡ element setting.now value) }
{
    Io::new(setting.id, width(setting), value)
}

/// Whether there are as many values as settings, and each fits its setting's width.
pub fn values_fit(ios: &[IoSetting], values: &[u64]) -> bool
    ensures { IsTrue result ↔ ValuesFit ios.now values.now }
{
    if ios.len() != values.len() {
        return false;
    }
    for i in 0..ios.len() {
        if element(&ios[i], values[i]).is_none() {
            return false;
        }
    }
    true
}

/// One element for each setting.
pub fn elements(ios: &[IoSetting], values: &[u64]) -> ArrayVec<Io, 112>
    requires fit { ValuesFit ios.now values.now }
    requires few { length ios.now ≤ 32 }
    ensures { result.items ≡ elements ios.now values.now }
{
    let mut out = ArrayVec::new();
    for i in 0..ios.len() {
        if let Some(io) = element(&ios[i], values[i]) {
            out.push(io);
        }
    }
    out
}
