//! A datagram or a reply that is printed.
ghost use Rattle.std.specs.Prelude.{◌≡◌, ◌≤◌, ◌^◌, ◌++◌, IfOk, OnOk, length};
ghost use Rattle.datagrams.specs.DatagramRows.{datagram_verdict, reply_verdict};
ghost use Rattle.datagrams.specs.Views.{value_of};
ghost use Rattle.fmb_show.specs.ItemLines.{datagram_lines};
ghost use Rattle.fmb_show.specs.Shown.{datagram_print, fault_print, reply_print};

use avl_values::{Fault, NoMemory};
use datagrams::{Datagram, read_datagram, read_reply};
use record_codecs::read_packet;
use show_lines::{Item, push_line, push_packet_lines};

/// Appends the lines of a datagram that was read.
fn push_read(out: &mut Vec<u8>, datagram: &Datagram<'_>, line: u32) -> Result<(), NoMemory>
    requires { length datagram.now.body.now ≤ 2 ^ 31 }
    ensures { OnOk result (out.new.items ≡ out.old.items ++ datagram_lines (value_of datagram.now) line) }
{
    push_line(
        out,
        &Item::Datagram {
            packet: datagram.packet,
            unused: datagram.unused,
            avl_packet: datagram.avl_packet,
            imei: datagram.imei,
        },
        line,
    )?;
    match read_packet(datagram.body) {
        Ok(head) => push_packet_lines(out, head, datagram.body, line),
        Err(_) => Ok(()),
    }
}

/// Appends the line of the first fault, which ends the print.
fn push_fault(out: &mut Vec<u8>, fault: Fault, line: u32) -> Result<bool, NoMemory>
    ensures text { IfOk result (λ faulty. out.new.items ≡ out.old.items ++ (fault_print fault.kind fault.place line).text) }
    ensures faulty { IfOk result (λ faulty. faulty ≡ (fault_print fault.kind fault.place line).faulty) }
{
    push_line(out, &Item::Fault(fault), line)?;
    Ok(true)
}

/// Appends what is printed of a datagram, and says whether a fault ends it.
pub fn push_datagram(out: &mut Vec<u8>, bytes: &[u8], line: u32) -> Result<bool, NoMemory>
    ensures text { IfOk result (λ faulty. out.new.items ≡ out.old.items ++ (datagram_print (datagram_verdict (length bytes.now) bytes.now) line).text) }
    ensures faulty { IfOk result (λ faulty. faulty ≡ (datagram_print (datagram_verdict (length bytes.now) bytes.now) line).faulty) }
{
    match read_datagram(bytes) {
        Ok(datagram) => {
            push_read(out, &datagram, line)?;
            Ok(false)
        }
        Err(fault) => push_fault(out, fault, line),
    }
}

/// Appends what is printed of a reply, and says whether a fault ends it.
pub fn push_reply(out: &mut Vec<u8>, bytes: &[u8], line: u32) -> Result<bool, NoMemory>
    ensures text { IfOk result (λ faulty. out.new.items ≡ out.old.items ++ (reply_print (reply_verdict (length bytes.now) bytes.now) line).text) }
    ensures faulty { IfOk result (λ faulty. faulty ≡ (reply_print (reply_verdict (length bytes.now) bytes.now) line).faulty) }
{
    match read_reply(bytes) {
        Ok(reply) => {
            push_line(
                out,
                &Item::Reply {
                    packet: reply.packet,
                    unused: reply.unused,
                    avl_packet: reply.avl_packet,
                    count: reply.count,
                },
                line,
            )?;
            Ok(false)
        }
        Err(fault) => push_fault(out, fault, line),
    }
}
