//! What a codec has.
ghost use Rattle.std.specs.Prelude.{◌<◌, ◌↔◌, [], IsTrue, All};
ghost use Rattle.avl_values.specs.RecordValue.{value_of};
ghost use Rattle.record_layout.specs.Spelling.{HasNoOther};
ghost use Rattle.record_writing.specs.Refusal.{HasNarrowIds};

use avl_values::{AvlRecord, Codec, Io};

/// Whether the value says nothing that the codec doesn't have: elements of any length, or a generation type.
pub fn is_in_codec(codec: Codec, value: &AvlRecord) -> bool
    ensures { IsTrue result ↔ HasNoOther codec (value_of value.now) }
{
    match codec {
        Codec::C8 => value.nx.len() == 0 && value.generation == 0,
        Codec::C8E => value.generation == 0,
        Codec::C16 => value.nx.len() == 0,
    }
}

fn are_narrow(ios: &[Io]) -> bool
    ensures { IsTrue result ↔ All (λ io. io.id < 256) ios.now }
{
    ios.iter().all(|io| io.id() < 256)
}

/// Whether the event's id and each element's have one byte, where the codec is Codec 8.
pub fn has_narrow_ids(codec: Codec, value: &AvlRecord) -> bool
    ensures { IsTrue result ↔ HasNarrowIds codec value.now }
{
    match codec {
        Codec::C8 => value.event < 256 && are_narrow(value.ios.as_slice()),
        Codec::C8E | Codec::C16 => true,
    }
}
