//! A trial's script: read from text, written as text, and made from a seed. The grammar is in `specs/Table.antt`, one row for
//! each kind of line; `specs/Grammar.antt` says which text is a script, and what the first fault of another is.
#![tactic(auto)]

mod choice;
mod compact;
mod connections;
mod devices;
mod draft;
mod drive;
mod fault;
mod field;
mod fields;
mod fix_line;
mod form;
mod line;
mod number;
mod pieces;
mod reader;
mod script;
mod standing;
mod word;
mod writer;

pub use draft::ScriptDraft;
pub use drive::drive_fault;
pub use fault::{ReadFault, ScriptFault};
pub use reader::read_script;
pub use script::Script;
pub use trial_model::{Fix, IoSetting, Operand, Order, ScriptLine, Tear, Who};
pub use writer::write_script;

#[cfg(test)]
mod tests;
