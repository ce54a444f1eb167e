ghost use Rattle.std.specs.Prelude.{◌≡◌, ◌++◌, OnOk};
ghost use Rattle.fmb_text.specs.Report.{connection_line, way_words};

use crate::ends::{push_device_end, push_server_end};
use avl_values::NoMemory;
use text_streams::{push, push_decimal, push_imei};
use trial_model::ConnectionOutcome;

#[tactic(auto, unfolding(crate::specs::Report::way_words))]
fn push_way(text: &mut Vec<u8>, way: &str, sent: usize, delivered: u64) -> Result<(), NoMemory>
    ensures { OnOk result (text.new.items ≡ text.old.items ++ way_words way.now sent delivered) }
{
    push(text, b" ")?;
    push(text, way.as_bytes())?;
    push(text, b" ")?;
    push_decimal(text, sent as u64)?;
    push(text, b" ")?;
    push_decimal(text, delivered)
}

/// `connection N IMEI device END server END up SENT DELIVERED down SENT DELIVERED`.
pub(crate) fn push_connection(
    text: &mut Vec<u8>,
    number: u64,
    connection: &ConnectionOutcome,
) -> Result<(), NoMemory>
    ensures { OnOk result (text.new.items ≡ text.old.items ++ connection_line number connection.now) }
{
    push(text, b"connection ")?;
    push_decimal(text, number)?;
    push(text, b" ")?;
    push_imei(text, &connection.imei)?;
    push(text, b" device ")?;
    push_device_end(text, connection.device)?;
    push(text, b" server ")?;
    push_server_end(text, connection.server)?;
    push_way(text, "up", connection.up.len(), connection.up_given)?;
    push_way(text, "down", connection.down.len(), connection.down_given)?;
    push(text, b"\n")?;
    Ok(())
}
