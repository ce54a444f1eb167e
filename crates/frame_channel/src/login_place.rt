//! Where in a login the next field stands.
ghost use Rattle.std.specs.Prelude.{◌≡◌, ◌≤◌, ◌<◌, ◌-◌, ◌^◌, suc, ℕ, List};
ghost use Rattle.layout.specs.Fields.{number as number_of};
ghost use Rattle.layout.specs.Rows.{done};
ghost use Rattle.field_machine.specs.Places.{Follows};
ghost use Rattle.frame_layout.specs.Logins.{digit_rows};
ghost use Rattle.frame_channel.specs.CountPlaces.{SaysNumber};
ghost use Rattle.frame_channel.specs.LoginPlaces.{IsSound, StandsInLogin, imei_rows, login_leaves, login_left};

use avl_values::{FaultKind, Imei};
use field_machine::{Cursor, Left, Machine, Place};

/// The next field of a login.
#[derive(Clone, Copy)]
pub enum LoginPlace {
    Length,
    /// A digit, with how many digits come after it, and the number that those before it spell.
    Digit(u8, u64),
    End(Imei),
}

/// Judges the bytes of a login one at a time, and then says its IMEI.
pub type LoginMachine = Machine<LoginPlace>;

#[tactic(auto, unfolding(frame_layout::specs::Logins::login_rows))]
fn length(value: u64) -> Result<LoginPlace, FaultKind>
    ensures { (field : List ℕ) → number_of field ≡ value → Follows StandsInLogin imei_rows field result }
{
    if value == 15 {
        Ok(LoginPlace::Digit(14, 0))
    } else {
        Err(FaultKind::LoginLength)
    }
}

#[tactic(auto, unfolding(frame_layout::specs::Logins::digit_rows))]
fn digit(left: u8, number: u64, value: u64) -> Result<LoginPlace, FaultKind>
    ensures { (field : List ℕ) → number_of field ≡ value → IsSound left number → Follows StandsInLogin (digit_rows (suc left) number (λ n. done n)) field result }
{
    if value < 48 || value > 57 {
        return Err(FaultKind::LoginDigit);
    }
    let number = number.wrapping_mul(10).wrapping_add(value - 48);
    if left > 0 {
        return Ok(LoginPlace::Digit(left - 1, number));
    }
    match Imei::from_number(number) {
        Some(imei) => Ok(LoginPlace::End(imei)),
        // 15 digits are below 10^15
        None => Err(FaultKind::LoginDigit),
    }
}

impl Place for LoginPlace {
    ghost use Rattle.std.specs.Prelude.{ℕ};

    type Head = Imei;

    ghost Value = { ℕ };

    ghost says = { SaysNumber };

    ghost left_of = { login_left };

    ghost stands = { StandsInLogin };

    ghost leaves = { login_leaves };

    fn left(self) -> Left<Imei> {
        match self {
            LoginPlace::Length => Left::Field(2),
            LoginPlace::Digit(..) => Left::Field(1),
            LoginPlace::End(imei) => Left::Nothing(imei),
        }
    }
}

impl Cursor for LoginPlace {
    fn next(self, value: u64) -> Result<LoginPlace, FaultKind> {
        match self {
            LoginPlace::Length => length(value),
            LoginPlace::Digit(left, number) => digit(left, number, value),
            LoginPlace::End(_) => Ok(self),
        }
    }
}
