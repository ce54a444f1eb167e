//! A line of a capture that is printed.
ghost use Rattle.std.specs.Prelude.{◌≡◌, ◌++◌, IfOk};
ghost use Rattle.fmb_show.specs.Shown.{bytes_print};

use crate::datagram::{push_datagram, push_reply};
use crate::down::push_down;
use crate::up::push_up;
use avl_values::NoMemory;
use capture_text::CaptureWord;
use frame_channel::Up;

/// Appends what is printed of a line of a capture, of which these are the word, the bytes and the number, and says whether a
/// fault ends it.
pub fn push_bytes(
    out: &mut Vec<u8>,
    up: &mut Up,
    word: CaptureWord,
    bytes: &[u8],
    number: u32,
) -> Result<bool, NoMemory>
    ensures text { IfOk result (λ faulty. out.new.items ≡ out.old.items ++ (bytes_print word bytes.now number).text) }
    ensures faulty { IfOk result (λ faulty. faulty ≡ (bytes_print word bytes.now number).faulty) }
{
    match word {
        CaptureWord::Up => push_up(out, up, false, bytes, number),
        CaptureWord::Frames => push_up(out, up, true, bytes, number),
        CaptureWord::Down => push_down(out, false, bytes, number),
        CaptureWord::Answers => push_down(out, true, bytes, number),
        CaptureWord::Udp => push_datagram(out, bytes, number),
        CaptureWord::Reply => push_reply(out, bytes, number),
    }
}
