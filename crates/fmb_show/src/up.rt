//! A stream up that is printed.
ghost use Rattle.std.specs.Prelude.{◌≡◌, ◌++◌, IfOk};
ghost use Rattle.item_streams.specs.Readers.{fresh};
ghost use Rattle.fmb_show.specs.Shown.{up_print};

use crate::command::push_command;
use crate::rest::push_short;
use avl_values::NoMemory;
use command_codecs::Way;
use frame_channel::{Up, UpItem};
use show_lines::{Item, push_line, push_packet_lines};

/// Begins anew before the login, or after it.
fn begin(up: &mut Up, after_login: bool)
    ensures { up.new ≡ fresh after_login }
{
    if after_login {
        up.begin_frames();
    } else {
        up.begin_login();
    }
}

/// Appends what is printed of a stream up, from the login or from after it, and says whether a fault ends it. The reader begins
/// anew. At NoMemory a part of it may have been appended.
pub fn push_up(
    out: &mut Vec<u8>,
    up: &mut Up,
    after_login: bool,
    bytes: &[u8],
    line: u32,
) -> Result<bool, NoMemory>
    ensures text { IfOk result (λ faulty. out.new.items ≡ out.old.items ++ (up_print after_login bytes.now line).text) }
    ensures faulty { IfOk result (λ faulty. faulty ≡ (up_print after_login bytes.now line).faulty) }
{
    begin(up, after_login);
    let mut at = 0;
    while at < bytes.len() {
        let (taken, item) = up.push(&bytes[at..]);
        at += taken;
        match item {
            UpItem::More => {}
            UpItem::Login(imei) => push_line(out, &Item::Login(imei), line)?,
            UpItem::Packet(head) => push_packet_lines(out, head, up.body(), line)?,
            UpItem::Response => push_command(out, Way::Up, up.body(), line)?,
            UpItem::Broken(fault) => {
                push_line(out, &Item::Fault(fault), line)?;
                return Ok(true);
            }
        }
    }
    let have = up.have();
    push_short(out, have, line)?;
    Ok(false)
}
