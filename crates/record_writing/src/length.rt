//! How many bytes a record has, before it is written.
ghost use Rattle.std.specs.Prelude.{◌≡◌, ◌<◌, ◌≤◌, ◌*◌, ◌↔◌, length, IsTrue};
ghost use Rattle.avl_values.specs.NxElements.{nx_size};
ghost use Rattle.avl_values.specs.RecordValue.{value_of};
ghost use Rattle.record_layout.specs.Spelling.{HasNoOther};
ghost use Rattle.record_writing.specs.Length.{ios_length, record_length, shortest_length};

use avl_values::{AvlRecord, Codec, Io, NxList, Width};
use record_layout::id_width;

/// The bytes of a record without elements: 30, 38 and 32 in Codec 8, Codec 8 Extended and Codec 16.
pub fn shortest_length(codec: Codec) -> usize
    ensures { result ≡ shortest_length codec }
{
    match codec {
        Codec::C8 => 30,
        Codec::C8E => 38,
        Codec::C16 => 32,
    }
}

/// The bytes that elements of 1, 2, 4 and 8 bytes take.
fn ios_length(ids: Width, ios: &[Io]) -> usize
    requires { length ios.now ≤ 112 }
    ensures is { result ≡ ios_length ids ios.now }
    ensures most { result ≤ 16 * length ios.now }
{
    let mut total = 0;
    for io in ios {
        total += (ids.bytes() + io.width().bytes()) as usize;
    }
    total
}

/// Whether the elements of any length have this room.
fn nx_fits(nx: &NxList, room: usize) -> bool
    ensures { IsTrue result ↔ (nx_size nx.now ≤ room) }
{
    let mut left = room;
    for i in 0..nx.len() {
        let length = nx.bytes_at(i).len();
        if left < 4 || length > left - 4 {
            return false;
        }
        left -= 4 + length;
    }
    true
}

/// Whether a value that the codec has takes at most 255 bytes.
#[tactic(auto, using(crate::proofs::Pieces::length_summed))]
pub fn has_room(codec: Codec, value: &AvlRecord) -> bool
    requires { HasNoOther codec (value_of value.now) }
    ensures { IsTrue result ↔ (record_length codec (value_of value.now) ≤ 255) }
{
    let taken = shortest_length(codec) + ios_length(id_width(codec), value.ios.as_slice());
    taken <= 255 && nx_fits(&value.nx, 255 - taken)
}
