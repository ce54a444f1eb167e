ghost use Rattle.std.specs.Prelude.{◌≡◌, ◌≤◌, ◌+◌, ◌*◌, ◌^◌, ◌++◌, length, IfOk, OnOk};
ghost use Rattle.journey_script.specs.Grammar.{IsScript};
ghost use Rattle.made_script.specs.Draws.{drawn_turns, seeded};
ghost use Rattle.made_script.specs.Made.{device_lines, drain_lines, made, of_devices, started, turn_lines};

use crate::draws::draw_turn;
use crate::journey::Journey;
use crate::lines::{push_device, push_drains, push_turn};
use avl_values::NoMemory;
use journey_script::{Script, ScriptDraft};
use rand_core::SeedableRng;
use rand_pcg::Pcg32;
use std::alloc::Global;

/// The script of a seed: the lines of each of `devices` devices, 1 to 64; `fixes` turns, 1 to 100,000, each of a fix and at most three
/// further lines; and two `drain` lines for each device. One seed gives the same script at each call. How it is made is this project's
/// own (docs/FORMATS.md, "Made scripts"). It takes about 60 bytes of memory for each line, and the values of `fix` lines.
pub fn make_script(alloc: Global, seed: u64, devices: u8, fixes: u32) -> Result<Script, NoMemory>
    requires least_devices { 1 ≤ devices }
    requires most_devices { devices ≤ 64 }
    requires least_fixes { 1 ≤ fixes }
    requires most_fixes { fixes ≤ 100000 }
    ensures made { IfOk result (λ script. script ≡ made seed devices fixes) }
    ensures is_script { IsScript (made seed devices fixes) }
{
    let devices = u32::from(devices);
    let mut draft = ScriptDraft::new(alloc);
    push_device_lines(alloc, &mut draft, devices)?;
    push_turns(alloc, &mut draft, seed, devices, fixes)?;
    push_drain_lines(alloc, &mut draft, devices)?;
    Ok(draft.finish())
}

fn push_device_lines(alloc: Global, draft: &mut ScriptDraft, devices: u32) -> Result<(), NoMemory>
    requires devices { devices ≤ 64 }
    requires draft { length draft.old ≤ 2 ^ 30 }
    ensures lines { OnOk result (draft.new ≡ draft.old ++ of_devices device_lines devices) }
    ensures few { OnOk result (length draft.new ≤ length draft.old + 3 * devices) }
{
    for number in 0..devices {
        push_device(alloc, draft, number + 1)?;
    }
    Ok(())
}

fn push_drain_lines(alloc: Global, draft: &mut ScriptDraft, devices: u32) -> Result<(), NoMemory>
    requires devices { devices ≤ 64 }
    requires draft { length draft.old ≤ 2 ^ 30 }
    ensures { OnOk result (draft.new ≡ draft.old ++ of_devices drain_lines devices) }
{
    for number in 0..devices {
        push_drains(alloc, draft, number + 1)?;
    }
    Ok(())
}

fn push_turns(
    alloc: Global,
    draft: &mut ScriptDraft,
    seed: u64,
    devices: u32,
    fixes: u32,
) -> Result<(), NoMemory>
    requires least_devices { 1 ≤ devices }
    requires most_devices { devices ≤ 64 }
    requires fixes { fixes ≤ 100000 }
    requires draft { length draft.old ≤ 2 ^ 29 }
    ensures lines { OnOk result (draft.new ≡ draft.old ++ turn_lines (started devices) (drawn_turns devices fixes (seeded seed))) }
    ensures few { OnOk result (length draft.new ≤ length draft.old + 4 * fixes) }
{
    let mut generator = Pcg32::seed_from_u64(seed);
    let mut journey = Journey::new(alloc, devices)?;
    for _done in 0..fixes {
        let turn = draw_turn(&mut generator, devices);
        journey.take(&turn);
        push_turn(alloc, draft, &journey, &turn)?;
    }
    Ok(())
}
