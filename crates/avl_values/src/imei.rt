ghost use Rattle.std.specs.Prelude.{◌≡◌, ◌<◌, ◌^◌, ◌↔◌, length, IsSome, IfSome};
ghost use Rattle.std.specs.List.{AllPass};
ghost use Rattle.avl_values.specs.Imei.{imei_text, is_digit};

use std::marker::Model;

/// A device's International Mobile Equipment Identity: 15 decimal digits, seen as a number below 10^15. Its check digit
/// isn't judged.
#[derive(Clone, Copy, Debug, PartialEq, Eq)]
pub struct Imei {
    number: u64,
}

impl Model for Imei {
    ghost use Rattle.std.specs.Prelude.{ℕ, ◌<◌, ◌^◌};

    ghost Value = { ℕ };

    ghost view = { λ i. i.number };

    ghost invariant = { λ i. i.number < 10 ^ 15 };

    ghost inverse = { λ n. record { number = n } };
}

impl Imei {
    /// Reads 15 ASCII digits; None exactly where there aren't 15 bytes, or one isn't `0` to `9`.
    pub fn from_digits(digits: &[u8]) -> Option<Imei>
        ensures found { IsSome result ↔ ((length digits.now ≡ 15) × AllPass is_digit digits.now) }
        ensures value { IfSome result (λ imei. imei_text imei ≡ digits.now) }
    {
        if digits.len() != 15 {
            return None;
        }
        let mut number: u64 = 0;
        for digit in digits {
            if *digit < b'0' || *digit > b'9' {
                return None;
            }
            number = number * 10 + (*digit - b'0') as u64;
        }
        Some(Imei { number })
    }

    /// None exactly from 10^15 on.
    pub fn from_number(number: u64) -> Option<Imei>
        ensures found { IsSome result ↔ (number < 10 ^ 15) }
        ensures value { IfSome result (λ imei. imei ≡ number) }
    {
        if number < 1_000_000_000_000_000 {
            Some(Imei { number })
        } else {
            None
        }
    }

    /// The fifteen digits as a number, below 10^15.
    pub fn number(&self) -> u64
        ensures value { result ≡ self.now }
        ensures bound { result < 10 ^ 15 }
    {
        self.number
    }

    /// The 15 ASCII digits.
    pub fn digits(&self) -> [u8; 15]
        ensures { result ≡ imei_text self.now }
    {
        let mut digits = [b'0'; 15];
        let mut rest = self.number;
        for i in (0..15).rev() {
            digits[i] = b'0' + (rest % 10) as u8;
            rest /= 10;
        }
        digits
    }
}
