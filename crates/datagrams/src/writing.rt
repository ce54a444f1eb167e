//! Datagrams and replies as bytes.
ghost use Rattle.std.specs.Prelude.{◌≡◌, ◌≤◌, ◌<◌, ◌+◌, ◌^◌, ◌↔◌, [], ◌∷◌, ◌++◌, length, IsTrue};
ghost use Rattle.std.specs.Bool.{OnFalse, OnTrue};
ghost use Rattle.std.specs.Int.{to_be_bytes, w16};
ghost use Rattle.arrayvec.specs.ArrayVec.{array_vec_len};
ghost use Rattle.layout.specs.Bytes.{AreBytes};
ghost use Rattle.record_layout.specs.declared.head.PacketHead.{PacketHead};
ghost use Rattle.record_layout.specs.Body.{IsBody};
ghost use Rattle.frame_layout.specs.Items.{login_of};
ghost use Rattle.datagrams.specs.Items.{IsDatagram, IsReply, content_of, datagram_of};
ghost use Rattle.datagrams.specs.Views.{reply_value_of, value_of};

use crate::datagram::Datagram;
use crate::reply::Reply;
use arrayvec::ArrayVec;
use frame_layout::write_login;
use layout::put_all;

/// The bytes of a datagram that come before its body: its length field, its numbers and its IMEI.
const HEAD: usize = 23;

const LONGEST_BODY: usize = 1280 - HEAD;

/// A datagram's three numbers, for which there is room.
fn put_numbers(out: &mut ArrayVec<u8, 1280>, packet: u16, unused: u8, avl_packet: u8)
    requires { array_vec_len out.old ≤ 1276 }
    ensures bytes { out.new.items ≡ out.old.items ++ to_be_bytes w16 packet ++ unused ∷ avl_packet ∷ [] }
    ensures len { array_vec_len out.new ≡ array_vec_len out.old + 4 }
    ensures fit { (packet < 2 ^ 16) × (unused < 256) × (avl_packet < 256) }
{
    put_all(out, &packet.to_be_bytes());
    out.push(unused);
    out.push(avl_packet);
}

/// Writes a datagram over what was in `out`. Its body is a data body. It is false, with `out` empty, exactly where the datagram
/// has more than 1,280 bytes.
pub fn write_datagram(value: &Datagram<'_>, out: &mut ArrayVec<u8, 1280>) -> bool
    requires { (head : PacketHead) × IsBody head value.now.body.now }
    ensures room { IsTrue result ↔ (length (datagram_of (value_of value.now)) ≤ 1280) }
    ensures bytes { OnTrue result (out.new.items ≡ datagram_of (value_of value.now)) }
    ensures datagram { OnTrue result (IsDatagram (value_of value.now) out.new.items) }
    ensures empty { OnFalse result (out.new.items ≡ []) }
{
    out.clear();
    let body = value.body;
    if body.len() > LONGEST_BODY {
        return false;
    }
    let content = (HEAD - 2 + body.len()) as u16;
    put_all(out, &content.to_be_bytes());
    put_numbers(out, value.packet, value.unused, value.avl_packet);
    put_all(out, &write_login(value.imei));
    put_all(out, body);
    true
}

/// The seven bytes of a reply's fields.
fn spelled(packet: u16, unused: u8, avl_packet: u8, count: u8) -> [u8; 7]
    ensures { IsReply (record { packet = packet; unused = unused; avl_packet = avl_packet; count = count }) result }
{
    let [high, low] = packet.to_be_bytes();
    [0, 5, high, low, unused, avl_packet, count]
}

/// The reply's seven bytes.
pub fn write_reply(value: &Reply) -> [u8; 7]
    ensures { IsReply (reply_value_of value.now) result }
{
    spelled(value.packet, value.unused, value.avl_packet, value.count)
}
