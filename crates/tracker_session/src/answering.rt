//! The answer to a command.
ghost use Rattle.std.specs.Prelude.{◌≡◌, ◌↔◌, ◌≤◌, length, IsTrue, true};
ghost use Rattle.command_layout.specs.Answers.{is_own, own_where};
ghost use Rattle.command_layout.specs.Spelling.{command_of};
ghost use Rattle.command_layout.specs.Table.{WellFormed};
ghost use Rattle.command_layout.specs.declared.way.Way.{Way};
ghost use Rattle.command_layout.specs.declared.way.Way.TheVariants.{Down, Up};
ghost use Rattle.command_codecs.specs.Views.{value_of};
ghost use Rattle.frame_layout.specs.Items.{frame_of};
ghost use Rattle.frame_layout.specs.Readings.{IsFramedCommand};
ghost use Rattle.tracker_session.specs.Responses.{answer_frame, shell_after};

use crate::shell::Shell;
use arrayvec::ArrayVec;
use avl_values::Imei;
use command_codecs::{Command, Way, read_command, write_command};
use frame_channel::write_frame;

/// The type of a response.
const RESPONSE: u8 = 0x06;

/// The type that refuses a command for another device.
const REFUSAL: u8 = 0x11;

/// Whether a command that names an IMEI, or none, is for this device.
fn is_own(own: Imei, named: Option<Imei>) -> bool
    ensures { result ≡ is_own own named }
{
    match named {
        Some(imei) => imei.number() == own.number(),
        None => true,
    }
}

/// The device's own IMEI, where the command names one.
fn own_where(own: Imei, named: Option<Imei>) -> Option<Imei>
    ensures { result ≡ own_where own named }
{
    match named {
        Some(_) => Some(own),
        None => None,
    }
}

/// Writes the frame of a response over what was in `out`.
fn write_response(command: &Command<'_>, out: &mut ArrayVec<u8, 1280>)
    requires well_formed { WellFormed Up (value_of command.now) }
    requires fits { length (command_of (value_of command.now)) ≤ 1268 }
    ensures { out.new.items ≡ frame_of (command_of (value_of command.now)) }
{
    let mut body = ArrayVec::<u8, 1268>::new();
    if !write_command(command, &mut body) {
        unreachable!();
    }
    write_frame(&body, out);
}

/// Hands a command to the shell, where it is for this device, and writes the frame of the answer over what was in `out`.
pub fn answer<S: Shell>(imei: Imei, body: &[u8], shell: &mut S, out: &mut ArrayVec<u8, 1280>)
    requires { IsFramedCommand Down body.now }
    ensures frame { out.new.items ≡ answer_frame (record { says = S.says; obeyed = S.obeyed }) imei shell.old body.now }
    ensures shell { shell.new ≡ shell_after (record { says = S.says; obeyed = S.obeyed }) imei shell.old body.now }
{
    let Ok(command) = read_command(body, Way::Down) else {
        unreachable!()
    };
    let mut text = ArrayVec::<u8, 1024>::new();
    if is_own(imei, command.imei) {
        shell.obey(command.text, &mut text);
        let response = Command {
            codec: command.codec,
            kind: RESPONSE,
            time: None,
            imei: own_where(imei, command.imei),
            text: &text,
        };
        write_response(&response, out);
    } else {
        let refusal = Command {
            codec: command.codec,
            kind: REFUSAL,
            time: None,
            imei: own_where(imei, command.imei),
            text: &[],
        };
        write_response(&refusal, out);
    }
}
