ghost use Rattle.std.specs.Prelude.{◌≡◌};
ghost use Rattle.command_codecs.specs.Views.{value_of};
ghost use Rattle.session_core.specs.Givings.{IsGiven};

use arrayvec::ArrayVec;
use avl_values::Imei;
use command_codecs::Command;

/// Commands that wait for devices.
pub trait Orders: Drop {
    ghost use Rattle.std.specs.Prelude.{ℕ, List, Option};
    ghost use Rattle.command_layout.specs.Values.{CommandValue};

    /// The frame that is given to a device, where one is.
    ghost gives: { Self → ℕ → Option (List ℕ) };

    /// The orders after `next` was asked for a device.
    ghost asked: { Self → ℕ → Self };

    /// The orders after a device's response was heard.
    ghost told: { Self → ℕ → CommandValue → Self };

    /// Gives one command to a device, if one waits for it: on true `out` is one whole command frame of the way down. What was
    /// in `out` is gone then; on false nothing is said of it.
    fn next(&mut self, imei: Imei, out: &mut ArrayVec<u8, 1280>) -> bool
        ensures gives { IsGiven (gives self.old imei) result out.new.items }
        ensures state { self.new ≡ asked self.old imei };

    /// Hears a device's response.
    fn heard(&mut self, imei: Imei, response: &Command<'_>)
        ensures { self.new ≡ told self.old imei (value_of response.now) };
}

/// No commands at all.
#[derive(Clone, Copy, Debug)]
pub struct NoOrders;

impl Orders for NoOrders {
    ghost use Rattle.std.specs.Prelude.{None};

    ghost gives = { λ orders imei. None };

    ghost asked = { λ orders imei. orders };

    ghost told = { λ orders imei response. orders };

    fn next(&mut self, imei: Imei, out: &mut ArrayVec<u8, 1280>) -> bool {
        let _ = imei;
        let _ = out;
        false
    }

    fn heard(&mut self, imei: Imei, response: &Command<'_>) {
        let _ = imei;
        let _ = response;
    }
}
