ghost use Rattle.std.specs.Prelude.{◌≡◌, ◌++◌, IfOk, OnOk};
ghost use Rattle.fmb_text.specs.Report.{report, full_report, brief_report};

use crate::connections::push_connection;
use crate::devices::{push_device, push_device_line};
use avl_values::NoMemory;
use std::alloc::Global;
use text_streams::{push, push_decimal};
use trial_model::Outcome;

fn push_full_report(alloc: Global, text: &mut Vec<u8>, outcome: &Outcome) -> Result<(), NoMemory>
    ensures { OnOk result (text.new.items ≡ text.old.items ++ full_report outcome.now) }
{
    'devices: for i in 0..outcome.devices() {
        push_device(alloc, text, outcome.device_at(i))?;
    }
    'connections: for i in 0..outcome.connections() {
        push_connection(text, i as u64 + 1, outcome.connection_at(i))?;
    }
    Ok(())
}

fn push_brief_report(text: &mut Vec<u8>, outcome: &Outcome) -> Result<(), NoMemory>
    ensures { OnOk result (text.new.items ≡ text.old.items ++ brief_report outcome.now) }
{
    'devices: for i in 0..outcome.devices() {
        push_device_line(text, outcome.device_at(i))?;
    }
    push(text, b"connections ")?;
    push_decimal(text, outcome.connections() as u64)?;
    push(text, b"\n")?;
    Ok(())
}

/// The report of an outcome: with each record and each connection, or brief.
pub fn report_text(alloc: Global, outcome: &Outcome, brief: bool) -> Result<Vec<u8>, NoMemory>
    ensures { IfOk result (λ text. text.items ≡ report outcome.now brief) }
{
    let mut text = Vec::new(alloc);
    if brief {
        push_brief_report(&mut text, outcome)?;
    } else {
        push_full_report(alloc, &mut text, outcome)?;
    }
    Ok(text)
}
