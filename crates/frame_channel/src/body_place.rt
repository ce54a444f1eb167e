//! Where in a frame's body the next field stands.
ghost use Rattle.std.specs.Prelude.{◌≡◌, ◌<◌, ℕ, List, length};
ghost use Rattle.layout.specs.Rows.{Rows};
ghost use Rattle.field_machine.specs.Places.{Follows, Reads};
ghost use Rattle.frame_layout.specs.FrameBodies.{body_kind_rows, command_body_rows};
ghost use Rattle.frame_layout.specs.declared.body_kind.BodyKind.{BodyKind};
ghost use Rattle.frame_channel.specs.BodyPlaces.{SaysKind, StandsAt, left_in};
ghost use Rattle.frame_channel.specs.BodyLaws.{body_leaves};

use avl_values::FaultKind;
use command_codecs::CommandPlace;
use command_layout::Way;
use field_machine::{Cursor, Left, Machine, Place, Scan};
use frame_layout::BodyKind;
use record_codecs::PacketPlace;

/// A place in the body of a frame: up in a data body or a response, by the codec id, and down in a command.
#[derive(Clone, Copy)]
pub enum BodyPlace {
    /// Before the codec id of a body of `total` bytes that passes this way.
    Codec(Way, u32),
    Packet(PacketPlace),
    Command(CommandPlace),
}

/// Judges the bytes of a body of a known length, one at a time, and holds none of them.
pub type BodyMachine = Machine<BodyPlace>;

/// What is known of a body from its first bytes. A fault's place is counted from the codec id.
pub type BodyScan = Scan<BodyKind>;

impl Place for BodyPlace {
    type Head = BodyKind;

    ghost Value = { BodyKind };

    ghost says = { SaysKind };

    ghost left_of = { left_in };

    ghost stands = { StandsAt };

    ghost leaves = { body_leaves };

    #[inline(always)]
    fn left(self) -> Left<BodyKind> {
        match self {
            BodyPlace::Codec(_, _) => Left::Field(1),
            BodyPlace::Packet(place) => match place.left() {
                Left::Field(width) => Left::Field(width),
                Left::Nothing(head) => Left::Nothing(BodyKind::Packet(head)),
            },
            BodyPlace::Command(place) => match place.left() {
                Left::Field(width) => Left::Field(width),
                Left::Nothing(()) => Left::Nothing(BodyKind::Command),
            },
        }
    }
}

/// What follows a command's codec id.
fn after_command_codec(way: Way, total: u32, value: u64) -> Result<BodyPlace, FaultKind>
    requires { value < 256 }
    ensures { (here : Rows BodyKind) → (field : List ℕ) → length field ≡ 1 → Reads field value → here ≡ command_body_rows way total → Follows StandsAt here field result }
{
    match CommandPlace::first(total, way).next(value) {
        Ok(place) => Ok(BodyPlace::Command(place)),
        Err(kind) => Err(kind),
    }
}

/// What follows a body's codec id: up the rest of a data body where the id is one of its codecs', and else that of a command.
fn after_codec(way: Way, total: u32, value: u64) -> Result<BodyPlace, FaultKind>
    requires { value < 256 }
    ensures { (here : Rows BodyKind) → (field : List ℕ) → length field ≡ 1 → Reads field value → here ≡ body_kind_rows way total → Follows StandsAt here field result }
{
    match way {
        Way::Up => match PacketPlace::Codec.next(value) {
            Ok(place) => Ok(BodyPlace::Packet(place)),
            Err(_) => after_command_codec(way, total, value),
        },
        Way::Down => after_command_codec(way, total, value),
    }
}

impl Cursor for BodyPlace {
    #[inline(always)]
    fn next(self, value: u64) -> Result<BodyPlace, FaultKind> {
        match self {
            BodyPlace::Codec(way, total) => after_codec(way, total, value),
            BodyPlace::Packet(place) => match place.next(value) {
                Ok(next) => Ok(BodyPlace::Packet(next)),
                Err(kind) => Err(kind),
            },
            BodyPlace::Command(place) => match place.next(value) {
                Ok(next) => Ok(BodyPlace::Command(next)),
                Err(kind) => Err(kind),
            },
        }
    }
}
