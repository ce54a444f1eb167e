ghost use Rattle.std.specs.Prelude.{◌≡◌, ◌<◌, ◌≤◌, ◌^◌, length, true};
ghost use Rattle.record_layout.specs.declared.head.PacketHead.{PacketHead};
ghost use Rattle.command_layout.specs.declared.way.Way.{Way};
ghost use Rattle.command_layout.specs.declared.way.Way.TheVariants.{Up, Down};
ghost use Rattle.command_layout.specs.Spelling.{IsCommand};
ghost use Rattle.command_layout.specs.Values.{CommandValue};
ghost use Rattle.record_layout.specs.Body.{IsBody};
ghost use Rattle.frame_layout.specs.Items.{IsCount, IsDownItem, IsFrameBody, IsLogin, IsUpItem, frame_of};
ghost use Rattle.frame_layout.specs.Values.{order, packet, response};
ghost use Rattle.frame_layout.specs.declared.body_kind.BodyKind.{BodyKind};

use arrayvec::ArrayVec;
use avl_values::Imei;
use crc_field::crc;
use layout::put_all;

/// Writes the frame of a data body, or of a command's body of one of the two ways, over what was in `out`: four zero bytes,
/// the body's length, the body, and its checksum. The body has at most 1,268 bytes.
pub fn write_frame(body: &[u8], out: &mut ArrayVec<u8, 1280>)
    requires passes { (way : Way) × (kind : BodyKind) × IsFrameBody way kind body.now }
    requires fits { length body.now ≤ 1268 }
    ensures bytes { out.new.items ≡ frame_of body.now }
    ensures packet { (head : PacketHead) → IsBody head body.now → IsUpItem true (packet head body.now) out.new.items }
    ensures response { (value : CommandValue) → IsCommand Up value body.now → IsUpItem true (response body.now) out.new.items }
    ensures order { (value : CommandValue) → IsCommand Down value body.now → IsDownItem true (order body.now) out.new.items }
{
    out.clear();
    put_all(out, &[0; 4]);
    put_all(out, &(body.len() as u32).to_be_bytes());
    put_all(out, body);
    put_all(out, &[0; 2]);
    put_all(out, &crc(body).to_be_bytes());
}

/// The login of a device: the length 15 in two bytes, and the 15 digits.
pub fn write_login(imei: Imei) -> [u8; 17]
    ensures { IsLogin imei result }
{
    let mut login = [0; 17];
    login[1] = 15;
    login[2..].copy_from_slice(&imei.digits());
    login
}

/// The count that answers a frame: its number of records, which isn't 0, in four bytes.
pub fn write_count(n: u8) -> [u8; 4]
    requires { 0 < n }
    ensures { IsCount n result }
{
    (n as u32).to_be_bytes()
}
