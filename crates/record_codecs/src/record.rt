//! Records alone.
ghost use Rattle.std.specs.Prelude.{◌≡◌, ◌≤◌, ◌↔◌, IsTrue, IfSome, length};
ghost use Rattle.record_layout.specs.RecordsOf.{first_record};
ghost use Rattle.record_codecs.specs.SomeRecord.{IsSomeRecord};

use crate::part_walk::PartWalk;
use avl_values::Codec;
use record_layout::parts;

/// How many of these bytes are the record at their front; None where no record stands there whole.
pub fn front_record(codec: Codec, bytes: &[u8]) -> Option<usize>
    ensures end { result ≡ first_record codec bytes.now }
    ensures within { IfSome result (λ n. n ≤ length bytes.now) }
{
    let mut walk = PartWalk {
        total: 0,
        counted: 0,
        rest: bytes,
    };
    let mut left = parts(codec);
    while let Some((part, behind)) = left.split_first() {
        walk = walk.past(*part, behind)?;
        left = behind;
    }
    Some(bytes.len() - walk.rest.len())
}

/// Whether the bytes are one record in this codec, and nothing more.
pub fn is_record(codec: Codec, bytes: &[u8]) -> bool
    ensures { IsTrue result ↔ IsSomeRecord codec bytes.now }
{
    match front_record(codec, bytes) {
        Some(length) => length == bytes.len(),
        None => false,
    }
}
