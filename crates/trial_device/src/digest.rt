//! A number for a record. Equal records have the same, and others mostly don't.
ghost use Rattle.std.specs.Prelude.{◌≡◌};
ghost use Rattle.avl_values.specs.Viewed.{record_of};
ghost use Rattle.trial_device.specs.Index.{digest_of, mixed_with};

use avl_values::{Codec, Rec};

const START: u64 = 0xcbf2_9ce4_8422_2325;

const FACTOR: u64 = 0x0000_0100_0000_01b3;

// A byte more.
#[tactic(auto, unfolding(crate::specs::Index::mixed_with))]
fn mixed(digest: u64, byte: u8) -> u64
    ensures { result ≡ mixed_with digest byte }
{
    (digest ^ byte as u64).wrapping_mul(FACTOR)
}

// The digest of a codec and bytes.
fn digest_by(codec: Codec, bytes: &[u8]) -> u64
    ensures { result ≡ digest_of (record { codec = codec; bytes = bytes.now }) }
{
    let mut digest = mixed(START, codec.id());
    for byte in bytes {
        digest = mixed(digest, *byte);
    }
    digest
}

/// The digest of a record's codec and bytes.
pub fn digest(rec: &Rec) -> u64
    ensures { result ≡ digest_of (record_of rec.now) }
{
    digest_by(rec.codec, rec.bytes.as_slice())
}
