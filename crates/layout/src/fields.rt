//! What a field says.
ghost use Rattle.std.specs.Prelude.{◌≡◌, ◌≤◌, ◌<◌, ◌^◌, length};
ghost use Rattle.layout.specs.Fields.{number as number_of};

/// The number that a field's bytes spell, the highest first. A field of more than 8 bytes is no number, and gives 0.
#[inline(always)]
pub fn number(field: &[u8]) -> u64
    ensures value { length field.now ≤ 8 → result ≡ number_of field.now }
    ensures small { length field.now ≤ 8 → result < 256 ^ length field.now }
    ensures long { 8 < length field.now → result ≡ 0 }
{
    let mut n = 0;
    if field.len() <= 8 {
        for byte in field {
            n = n * 256 + u64::from(*byte);
        }
    }
    n
}
