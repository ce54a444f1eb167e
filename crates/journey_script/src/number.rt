ghost use Rattle.std.specs.Prelude.{◌≡◌, ◌+◌, ◌-◌, ◌^◌, ◌<◌, ◌≤◌, ◌≤ℤ◌, pos, negsuc, length, IfSome, MatchOption};
ghost use Rattle.std.specs.List.{list_all};
ghost use Rattle.avl_values.specs.Imei.{is_digit};
ghost use Rattle.journey_script.specs.Numbers.{imei_of, is_numeral, negative, number_within, signed_within, value_of};

use avl_values::Imei;

/// The number from low to high that a field spells; None exactly where it spells none.
#[tactic(auto, unfolding(crate::specs::Numbers::number_within))]
pub fn number(low: u64, high: u64, field: &[u8]) -> Option<u64>
    ensures number { result ≡ number_within low high field.now }
    ensures range { IfSome result (λ n. n ≤ high) }
{
    if !is_spelled(field) {
        return None;
    }
    let number = value(field)?;
    if low <= number && number <= high {
        Some(number)
    } else {
        None
    }
}

fn is_spelled(field: &[u8]) -> bool
    ensures { result ≡ is_numeral field.now }
{
    !field.is_empty() && are_digits(field) && (field[0] != b'0' || field.len() == 1)
}

fn are_digits(field: &[u8]) -> bool
    ensures { result ≡ list_all is_digit field.now }
{
    field.iter().all(|b| (48..=57).contains(b))
}

// None where the number doesn't fit.
fn value(digits: &[u8]) -> Option<u64>
    ensures { MatchOption result (2 ^ 64 ≤ value_of digits.now) (λ n. n ≡ value_of digits.now) }
{
    let mut n: u64 = 0;
    for digit in digits {
        n = n
            .checked_mul(10)?
            .checked_add(u64::from(digit.saturating_sub(b'0')))?;
    }
    Some(n)
}

/// The number from `-(limit + 1)` to `limit` that a field spells; None exactly where it spells none.
#[tactic(auto, unfolding(crate::specs::Numbers::signed_within, crate::specs::Numbers::number_within))]
pub fn signed(limit: u32, field: &[u8]) -> Option<i32>
    requires { limit < 2 ^ 31 }
    ensures number { result ≡ signed_within limit field.now }
    ensures range { IfSome result (λ z. (z ≤ℤ pos limit) × (negsuc limit ≤ℤ z)) }
{
    if field.is_empty() || field[0] != b'-' {
        return match number(0, u64::from(limit), field) {
            Some(n) => Some(n as i32),
            None => None,
        };
    }
    match number(1, u64::from(limit) + 1, &field[1..]) {
        Some(n) => Some(minus(n)),
        None => None,
    }
}

fn minus(n: u64) -> i32
    requires some { 1 ≤ n }
    requires fits { n ≤ 2 ^ 31 }
    ensures { result ≡ negative n }
{
    -1 - (n - 1) as i32
}

/// The IMEI that a field spells; None exactly where it spells none.
#[tactic(auto, unfolding(crate::specs::Numbers::imei_of))]
pub fn imei(field: &[u8]) -> Option<Imei>
    ensures { result ≡ imei_of field.now }
{
    let imei = Imei::from_digits(field)?;
    let _number = imei.number();
    Some(imei)
}
