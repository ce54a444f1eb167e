//! Datagrams and replies read.
ghost use Rattle.std.specs.Prelude.{◌≡◌, IfErr, IfOk, length};
ghost use Rattle.layout.specs.Rows.{fault, whole};
ghost use Rattle.datagrams.specs.DatagramRows.{datagram_verdict, reply_verdict};
ghost use Rattle.datagrams.specs.Items.{IsDatagram, IsReply};
ghost use Rattle.datagrams.specs.Values.{DatagramValue};
ghost use Rattle.datagrams.specs.Views.{reply_value_of, value_of};

use crate::datagram::Datagram;
use crate::place::DatagramPlace;
use crate::reply::Reply;
use avl_values::{Fault, FaultKind, Imei};
use field_machine::{Scan, scan};

/// A length that isn't that of the bytes.
const WRONG_LENGTH: Fault = Fault {
    kind: FaultKind::DatagramLength,
    place: 0,
};

/// The most bytes of a datagram: two of its length, and those after it.
const LONGEST: usize = 65_537;

/// The bytes of a reply.
const REPLY: usize = 7;

/// The bytes of a reply after its length.
const REPLY_LENGTH: u16 = 5;

/// What the fields of a datagram say.
fn said_by(bytes: &[u8]) -> Datagram<'_>
    requires { (v : DatagramValue) × IsDatagram v bytes.now }
    ensures { IsDatagram (value_of result) bytes.now }
{
    let (numbers, rest) = bytes.split_at(8);
    let (digits, body) = rest.split_at(15);
    match Imei::from_digits(digits) {
        Some(imei) => Datagram {
            packet: u16::from_be_bytes([numbers[2], numbers[3]]),
            unused: numbers[4],
            avl_packet: numbers[5],
            imei,
            body,
        },
        None => unreachable!(),
    }
}

/// Reads a datagram: what it says, or its first fault (Teltonika, Data Sending Protocols, "Codec 8 protocol sending over UDP").
/// Places are counted from its first byte.
pub fn read_datagram(bytes: &[u8]) -> Result<Datagram<'_>, Fault>
    ensures value { IfOk result (λ datagram. datagram_verdict (length bytes.now) bytes.now ≡ whole (value_of datagram) (length bytes.now)) }
    ensures datagram { IfOk result (λ datagram. IsDatagram (value_of datagram) bytes.now) }
    ensures broken { IfErr result (λ found. datagram_verdict (length bytes.now) bytes.now ≡ fault found.kind found.place) }
{
    if bytes.len() < 2 || bytes.len() > LONGEST {
        return Err(WRONG_LENGTH);
    }
    let total = bytes.len() as u32;
    match scan(bytes, total, DatagramPlace::Length(total)) {
        Scan::Whole(_) => Ok(said_by(bytes)),
        Scan::Broken(fault) => Err(fault),
        Scan::More => unreachable!(),
    }
}

/// Reads a reply: what it says, or its first fault, which is its length's at 0 (Teltonika, Data Sending Protocols, "Codec 8
/// protocol sending over UDP").
pub fn read_reply(bytes: &[u8]) -> Result<Reply, Fault>
    ensures value { IfOk result (λ reply. reply_verdict (length bytes.now) bytes.now ≡ whole (reply_value_of reply) (length bytes.now)) }
    ensures reply { IfOk result (λ reply. IsReply (reply_value_of reply) bytes.now) }
    ensures broken { IfErr result (λ found. reply_verdict (length bytes.now) bytes.now ≡ fault found.kind found.place) }
{
    if bytes.len() != REPLY {
        return Err(WRONG_LENGTH);
    }
    if u16::from_be_bytes([bytes[0], bytes[1]]) != REPLY_LENGTH {
        return Err(WRONG_LENGTH);
    }
    Ok(Reply {
        packet: u16::from_be_bytes([bytes[2], bytes[3]]),
        unused: bytes[4],
        avl_packet: bytes[5],
        count: bytes[6],
    })
}
