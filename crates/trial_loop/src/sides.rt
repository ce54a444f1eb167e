//! The devices' sides of a trial.
ghost use Rattle.std.specs.Prelude.{IfNone, IfSome};
ghost use Rattle.trial_loop.specs.Places.{HasNone, IsPlaceOf};

use avl_values::Imei;
use medium_model::Bench;
use trial_device::DeviceSide;

/// The place of the side with this IMEI.
pub fn place_of<B: Bench>(sides: &[DeviceSide<B>], imei: Imei) -> Option<usize>
    ensures found { IfSome result (IsPlaceOf imei sides.now) }
    ensures none { IfNone result (HasNone imei sides.now) }
{
    for place in 0..sides.len() {
        if sides[place].imei() == imei {
            return Some(place);
        }
    }
    None
}
