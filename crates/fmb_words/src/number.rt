//! Numbers and IMEIs as words.
ghost use Rattle.std.specs.Prelude.{◌≡◌, ◌≤◌, ◌&&◌, nat_le, Err, None, Some, IfOk, IfSome, decimal, map};
ghost use Rattle.std.specs.Str.{bytes_eq};
ghost use Rattle.fmb_words.specs.Numbers.{imei_of, imeis_of, number_within};

use crate::fault::WordsFault;
use avl_values::Imei;
use itoa::Buffer;
use std::alloc::Global;

// Whether the word is the digits of this number.
fn is_spelled(number: u64, word: &str) -> bool
    ensures { result ≡ bytes_eq (decimal number) word.now }
{
    let mut digits = Buffer::new();
    digits.format(number) == word
}

// Whether the word is the digits of this number, which is one from low to high.
fn is_within(low: u64, high: u64, number: u64, word: &str) -> bool
    ensures { result ≡ (bytes_eq (decimal number) word.now && (nat_le low number && nat_le number high)) }
{
    is_spelled(number, word) && low <= number && number <= high
}

/// The number from low to high that a word spells; None exactly where it spells none.
pub(crate) fn number(low: u64, high: u64, word: &str) -> Option<u64>
    ensures number { result ≡ number_within low high word.now }
    ensures range { IfSome result (λ n. (low ≤ n) × (n ≤ high)) }
{
    match word.parse::<u64>() {
        Ok(number) => {
            if is_within(low, high, number, word) {
                Some(number)
            } else {
                None
            }
        }
        Err(_) => None,
    }
}

/// The IMEI that a word spells; None exactly where it spells none.
#[tactic(auto, unfolding(crate::specs::Numbers::imei_of))]
pub(crate) fn imei(word: &[u8]) -> Option<Imei>
    ensures { result ≡ imei_of word.now }
{
    let imei = Imei::from_digits(word)?;
    let _number = imei.number();
    Some(imei)
}

/// The IMEIs that words spell; refused exactly where one spells none, unless memory is wanting.
pub(crate) fn imeis(alloc: Global, words: &[&str]) -> Result<Vec<Imei>, WordsFault>
    ensures read { IfOk result (λ list. imeis_of (map (λ w. w.now) words.now) ≡ Some list.items) }
    ensures refused { result ≡ Err WordsFault.Refused → imeis_of (map (λ w. w.now) words.now) ≡ None }
{
    let mut list = Vec::new(alloc);
    'words: for word in words {
        let Some(imei) = imei(word.as_bytes()) else {
            return Err(WordsFault::Refused);
        };
        let Ok(()) = list.push(imei) else {
            return Err(WordsFault::NoMemory);
        };
    }
    Ok(list)
}
