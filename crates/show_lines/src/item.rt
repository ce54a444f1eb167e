//! Items of a capture that take one line.
ghost use Rattle.std.specs.Prelude.{◌≡◌, ◌++◌, OnErr, OnOk};
ghost use Rattle.show_lines.specs.ItemTexts.{packet_text};
ghost use Rattle.show_lines.specs.Json.{as_line};
ghost use Rattle.show_lines.specs.Lines.{item_line};
ghost use Rattle.show_lines.specs.Sent.{Sends};
ghost use Rattle.show_lines.specs.Tokens.{answer_member_tokens, answer_tokens, count_tokens, datagram_tokens, fault_tokens, login_tokens, packet_tokens, reply_tokens, short_tokens, tokens_of};

use crate::members;
use crate::push::push_json;
use avl_values::{Fault, Imei, NoMemory};
use record_codecs::PacketHead;
use serde::{Described, Serialize, Serializer};

/// An item of a capture but a command, as far as it is printed in one line: a packet's records have lines of their own.
#[derive(Clone, Copy)]
pub enum Item {
    /// A login.
    Login(Imei),
    /// The byte of a login's answer.
    Answer(u8),
    /// A count of records.
    Count(u32),
    /// The end of the bytes inside an item, of which N are there.
    Short {
        have: u32,
    },
    /// The first fault of an item's bytes.
    Fault(Fault),
    /// What a packet says first.
    Packet(PacketHead),
    /// A datagram, but for its packet.
    Datagram {
        /// The packet id of the UDP channel.
        packet: u16,
        /// The byte that isn't used.
        unused: u8,
        /// The AVL packet id.
        avl_packet: u8,
        imei: Imei,
    },
    /// A reply to a datagram.
    Reply {
        packet: u16,
        unused: u8,
        avl_packet: u8,
        /// How many records were accepted.
        count: u8,
    },
}

fn login<S: Serializer>(out: &mut S, imei: Imei, line: u32) -> Result<(), S::Error>
    ensures { OnOk result (Sends (login_tokens imei line) (S.written out.old) (S.written out.new)) }
{
    members::begin(out, 3)?;
    members::imei(out, imei)?;
    members::item(out, "login", line)?;
    members::end(out)
}

/// What the byte says of the login: 1 is accepted, 0 is refused, and another byte stands as it is.
fn accepted<S: Serializer>(out: &mut S, byte: u8) -> Result<(), S::Error>
    ensures { OnOk result (Sends (answer_member_tokens byte) (S.written out.old) (S.written out.new)) }
{
    match byte {
        1 => members::boolean(out, "accepted", true),
        0 => members::boolean(out, "accepted", false),
        _ => members::number(out, "byte", byte as u64),
    }
}

fn answer<S: Serializer>(out: &mut S, byte: u8, line: u32) -> Result<(), S::Error>
    ensures { OnOk result (Sends (answer_tokens byte line) (S.written out.old) (S.written out.new)) }
{
    members::begin(out, 3)?;
    accepted(out, byte)?;
    members::item(out, "answer", line)?;
    members::end(out)
}

fn count<S: Serializer>(out: &mut S, count: u32, line: u32) -> Result<(), S::Error>
    ensures { OnOk result (Sends (count_tokens count line) (S.written out.old) (S.written out.new)) }
{
    members::begin(out, 3)?;
    members::number(out, "count", count as u64)?;
    members::item(out, "count", line)?;
    members::end(out)
}

fn short<S: Serializer>(out: &mut S, have: u32, line: u32) -> Result<(), S::Error>
    ensures { OnOk result (Sends (short_tokens have line) (S.written out.old) (S.written out.new)) }
{
    members::begin(out, 3)?;
    members::number(out, "have", have as u64)?;
    members::item(out, "short", line)?;
    members::end(out)
}

fn fault<S: Serializer>(out: &mut S, fault: Fault, line: u32) -> Result<(), S::Error>
    ensures { OnOk result (Sends (fault_tokens fault line) (S.written out.old) (S.written out.new)) }
{
    members::begin(out, 5)?;
    members::text(out, "fault", fault.kind.name())?;
    members::item(out, "fault", line)?;
    members::number(out, "number", fault.kind.number() as u64)?;
    members::number(out, "place", fault.place as u64)?;
    members::end(out)
}

fn packet<S: Serializer>(out: &mut S, head: PacketHead, line: u32) -> Result<(), S::Error>
    ensures { OnOk result (Sends (packet_tokens head line) (S.written out.old) (S.written out.new)) }
{
    members::begin(out, 4)?;
    members::number(out, "codec", head.codec.id() as u64)?;
    members::number(out, "count", head.count as u64)?;
    members::item(out, "packet", line)?;
    members::end(out)
}

fn datagram<S: Serializer>(
    out: &mut S,
    packet: u16,
    unused: u8,
    avl_packet: u8,
    imei: Imei,
    line: u32,
) -> Result<(), S::Error>
    ensures { OnOk result (Sends (datagram_tokens packet unused avl_packet imei line)
        (S.written out.old) (S.written out.new)) }
{
    members::begin(out, 5)?;
    members::number(out, "avl_packet", avl_packet as u64)?;
    members::imei(out, imei)?;
    members::item(out, "datagram", line)?;
    members::number(out, "packet", packet as u64)?;
    members::number(out, "unused", unused as u64)?;
    members::end(out)
}

fn reply<S: Serializer>(
    out: &mut S,
    packet: u16,
    unused: u8,
    avl_packet: u8,
    count: u8,
    line: u32,
) -> Result<(), S::Error>
    ensures { OnOk result (Sends (reply_tokens packet unused avl_packet count line)
        (S.written out.old) (S.written out.new)) }
{
    members::begin(out, 5)?;
    members::number(out, "avl_packet", avl_packet as u64)?;
    members::number(out, "count", count as u64)?;
    members::item(out, "reply", line)?;
    members::number(out, "packet", packet as u64)?;
    members::number(out, "unused", unused as u64)?;
    members::end(out)
}

/// An item on a line of a capture.
#[derive(Drop)]
struct ItemLine<'a> {
    item: &'a Item,
    line: u32,
}

impl Described for ItemLine<'_> {
    ghost writes = { λ l old new. Sends (tokens_of l.item.now l.line) old new };
}

impl Serialize for ItemLine<'_> {
    fn serialize<S: Serializer>(&self, out: &mut S) -> Result<(), S::Error> {
        let line = self.line;
        match self.item {
            Item::Login(imei) => login(out, *imei, line),
            Item::Answer(byte) => answer(out, *byte, line),
            Item::Count(n) => count(out, *n, line),
            Item::Short { have } => short(out, *have, line),
            Item::Fault(found) => fault(out, *found, line),
            Item::Packet(head) => packet(out, *head, line),
            Item::Datagram {
                packet,
                unused,
                avl_packet,
                imei,
            } => datagram(out, *packet, *unused, *avl_packet, *imei, line),
            Item::Reply {
                packet,
                unused,
                avl_packet,
                count,
            } => reply(out, *packet, *unused, *avl_packet, *count, line),
        }
    }
}

/// Appends the line of an item that is in this line of the capture. NoMemory changes nothing.
pub fn push_line(out: &mut Vec<u8>, item: &Item, line: u32) -> Result<(), NoMemory>
    ensures ok { OnOk result (out.new.items ≡ out.old.items ++ item_line item.now line) }
    ensures err { OnErr result (out.new.items ≡ out.old.items) }
{
    push_json(out, &ItemLine { item, line })
}
