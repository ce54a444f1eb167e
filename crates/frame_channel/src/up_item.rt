ghost use Rattle.std.specs.Prelude.{◌≡◌};
ghost use Rattle.frame_channel.specs.UpItems.{frame_item};

use avl_values::{Fault, Imei};
use frame_layout::BodyKind;
use record_layout::PacketHead;

/// What the bytes up so far are.
#[derive(Clone, Copy, Debug, PartialEq, Eq)]
pub enum UpItem {
    /// Fewer bytes than an item.
    More,
    /// The login of this device. It comes only first.
    Login(Imei),
    /// A data frame, by what its body says first. The reader lends the body.
    Packet(PacketHead),
    /// The frame of a response of Codecs 12 to 15. The reader lends its body, which says the rest.
    Response,
    /// No item can begin with these bytes. The fault's place is counted from the item's first byte.
    Broken(Fault),
}

/// The item that a whole frame is.
pub fn of_frame(kind: BodyKind) -> UpItem
    ensures { result ≡ frame_item kind }
{
    match kind {
        BodyKind::Packet(head) => UpItem::Packet(head),
        BodyKind::Command => UpItem::Response,
    }
}
