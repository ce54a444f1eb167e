//! A packet's lines.
ghost use Rattle.std.specs.Prelude.{◌≡◌, ◌++◌, ℕ, List, OnErr, OnOk};
ghost use Rattle.record_layout.specs.Packet.{IsPacket};
ghost use Rattle.show_lines.specs.Extends.{Extends};
ghost use Rattle.show_lines.specs.PacketLines.{packet_lines};

use crate::item::{Item, push_line};
use crate::record::push_record_line;
use avl_values::NoMemory;
use record_codecs::{PacketHead, records};

/// The same, with what it has appended at NoMemory.
fn push_all(out: &mut Vec<u8>, head: PacketHead, body: &[u8], line: u32) -> Result<(), NoMemory>
    ensures ok { OnOk result ((rs : List (List ℕ)) → IsPacket head.codec rs body.now
        → out.new.items ≡ out.old.items ++ packet_lines head body.now line) }
    ensures err { OnErr result (Extends out.old.items out.new.items) }
{
    push_line(out, &Item::Packet(head), line)?;
    for record in records(body) {
        push_record_line(out, head.codec, record, line)?;
    }
    Ok(())
}

/// Appends the line of a packet that says this first and has this body, and the lines of its records, in their order. NoMemory
/// changes nothing. Of a body that isn't the packet the records' lines are of no use.
pub fn push_packet_lines(
    out: &mut Vec<u8>,
    head: PacketHead,
    body: &[u8],
    line: u32,
) -> Result<(), NoMemory>
    ensures ok { OnOk result ((rs : List (List ℕ)) → IsPacket head.codec rs body.now
        → out.new.items ≡ out.old.items ++ packet_lines head body.now line) }
    ensures err { OnErr result (out.new.items ≡ out.old.items) }
{
    let before = out.len();
    let pushed = push_all(out, head, body, line);
    if pushed.is_err() {
        out.truncate(before);
    }
    pushed
}
