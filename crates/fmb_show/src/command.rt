ghost use Rattle.std.specs.Prelude.{◌≡◌, ◌≤◌, ◌^◌, ◌++◌, OnOk, length};
ghost use Rattle.fmb_show.specs.ItemLines.{command_line};

use avl_values::NoMemory;
use command_codecs::{Way, read_command};
use show_lines::push_command_line;

/// Appends the line of the command that a body is.
pub fn push_command(out: &mut Vec<u8>, way: Way, body: &[u8], line: u32) -> Result<(), NoMemory>
    requires { length body.now ≤ 2 ^ 31 }
    ensures { OnOk result (out.new.items ≡ out.old.items ++ command_line way body.now line) }
{
    match read_command(body, way) {
        Ok(command) => push_command_line(out, &command, line),
        Err(_) => Ok(()),
    }
}
